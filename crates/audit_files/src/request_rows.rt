//! The requests of a file, read one after another.
ghost use Rattle.std.specs.Prelude.{◌≡◌, ◌++◌, ◌∷◌, [], ℕ, List, Some, None, Ok, Err, IfOk, IfErr, IfSome, OnOk, drop};
ghost use Rattle.audit_files.specs.Faults.{IsNotOutOfMemory, failures_in};
ghost use Rattle.audit_files.specs.Files.{after_header};
ghost use Rattle.audit_files.specs.RequestRows.{HasRead, HasReadRecords, bytes_behind};
ghost use Rattle.audit_files.specs.Requests.{requests_header, requests_of_file};
ghost use Rattle.audit_files.specs.Rows.{records_of};
ghost use Rattle.audit_files.specs.declared.requests.Requests.{Requests};
ghost use Rattle.sudo_match.specs.declared.request.Request.{Request};

use crate::FileFault;
use crate::plain::{first_row, next_row};
use crate::requests::{RequestList, Requests, order_fault, requests_of_text};
use crate::table::gather_from;
use std::alloc::{AllocError, Global};
use sudo_match::Request;

// The fewest bytes that are given back at a time.
const GIVEN_BACK: usize = 4_194_304;

/// A requests file whose requests are read one after another while its rows have no quotes. What is
/// left then, a close row among it, is read at once.
#[derive(Drop)]
pub struct RequestRows {
    alloc: Global,
    text: Vec<u8>,
    // Whether the header was read.
    has_header: bool,
    // Where the bytes that are left begin.
    at: usize,
    // How many requests were read.
    count: u32,
    // The number of the last one, or 0.
    last: u32,
}

// Returns where the header ends, if the first row is the header and has no quotes.
fn header_end(text: &[u8]) -> Option<usize>
    ensures { IfSome result (λ at. after_header requests_header (records_of text.now)
        ≡ Some (records_of (drop at text.now))) }
{
    match first_row(text) {
        Some((first, rest)) if first.is_header() => Some(text.len().saturating_sub(rest.len())),
        _ => None,
    }
}

impl RequestRows {
    /// Returns the requests file of these bytes, of which no request is read yet.
    pub fn of(alloc: Global, text: Vec<u8>) -> RequestRows
        ensures { HasRead result text.items [] }
    {
        let end = header_end(&text);
        RequestRows {
            alloc,
            text,
            has_header: end.is_some(),
            at: end.unwrap_or(0),
            count: 0,
            last: 0,
        }
    }

    // Returns the bytes that are left.
    fn left(&self) -> &[u8]
        ensures { result.now ≡ bytes_behind self.now }
    {
        let text = self.text.as_slice();
        &text[self.at.min(text.len())..]
    }

    /// Returns the next request, if the next row states it without a fault and without quotes. `rest`
    /// reads what is left. Fails only if allocation failed.
    pub fn next(&mut self) -> Result<Option<Request>, AllocError>
        ensures request { IfOk result (λ found. IfSome found (λ r. (text : List ℕ)
            → (requests : List Request) → HasRead self.old text requests
            → HasRead self.new text (requests ++ r ∷ []))) }
        ensures none { result ≡ Ok None → self.new ≡ self.old }
    {
        if !self.has_header {
            return Ok(None);
        }
        let Some((fields, after)) = next_row(self.left()) else {
            return Ok(None);
        };
        let Some(number) = fields.asked_number() else {
            return Ok(None);
        };
        if order_fault(0, self.last, self.count as usize, number).is_some() {
            return Ok(None);
        }
        let request = fields.request(self.alloc, number)?;
        self.at = self.text.len().saturating_sub(after.len());
        self.count += 1;
        self.last = number;
        self.give_back();
        Ok(Some(request))
    }

    // Gives back the room of the bytes that were read, once they are three quarters of all.
    fn give_back(&mut self)
        ensures left { bytes_behind self.new ≡ bytes_behind self.old }
        ensures same { (self.new.has_header ≡ self.old.has_header)
            × (self.new.count ≡ self.old.count) × (self.new.last ≡ self.old.last) }
    {
        if self.at < GIVEN_BACK || self.text.len().saturating_sub(self.at) > self.at / 3 {
            return;
        }
        if let Ok(left) = Vec::from_slice(self.alloc, self.left()) {
            self.text = left;
            self.at = 0;
        }
    }

    /// Reads what is left, and returns its requests and the count of the close row.
    ///
    /// The faults are those of `read_requests`, but for `Read` and the limit of bytes.
    pub fn rest(self) -> Result<Requests, FileFault>
        ensures stated { IfOk result (λ left. (text : List ℕ) → (requests : List Request)
            → HasRead self text requests → requests_of_file text
            ≡ Ok (record { list = requests ++ left.list; close = left.close })) }
        ensures fault { IfErr result (λ e. IsNotOutOfMemory e → (text : List ℕ)
            → (requests : List Request) → HasRead self text requests
            → requests_of_file text ≡ Err e) }
        ensures no_read { IfErr result (λ e. failures_in e ≡ 0) }
    {
        if !self.has_header {
            return requests_of_text(self.alloc, self.text.as_slice());
        }
        let none = Vec::new(self.alloc);
        let mut table = RequestList::behind(self.alloc, self.count, self.last, none);
        let row = self.count.saturating_add(2);
        match gather_from(self.alloc, self.left(), &mut table, row) {
            Ok(()) => Ok(table.into_requests()),
            Err(fault) => Err(fault),
        }
    }
}
