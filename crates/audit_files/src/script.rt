//! Readers and writers over memory.
ghost use Rattle.std.specs.Prelude.{◌≡◌, ◌<◌, ◌≤◌, ◌++◌, ◌-◌, [], None, Some, false, IfOk, OnErr, length, max, take, vec_len};
ghost use Rattle.audit_files.specs.Count.{times};
ghost use Rattle.audit_files.specs.Feeding.{failing, given_before_call};

use crate::{Count, Failed, Feed, Sink};
use std::alloc::{AllocError, Global};

/// A reader and a writer over memory. Its contracts specify all bytes; it moves a limited number of
/// bytes per call, and can fail at a chosen call.
#[derive(Drop)]
pub struct Script {
    text: Vec<u8>,
    at: usize,
    fails: bool,
    written: Vec<u8>,
    writes_left: Option<u64>,
    step: usize,
    failed_reads: Count,
    stalled_writes: Count,
    ghost within: { at ≤ vec_len text },
}

impl Script {
    ghost use Rattle.audit_files.specs.Script.{ahead_of, taken_of, writes_of, stalled_of, step_of};

    /// Creates a reader of these bytes, which moves at most `step` bytes per call (1 if `step` is 0).
    /// Returns `AllocError` if allocation failed.
    pub fn of(alloc: Global, bytes: &[u8], step: usize) -> Result<Script, AllocError>
        ensures ahead { IfOk result (λ s. ahead_of s
            ≡ record { bytes = bytes.now; fails = false }) }
        ensures taken { IfOk result (λ s. taken_of s ≡ []) }
        ensures writes { IfOk result (λ s. writes_of s ≡ None) }
        ensures step { IfOk result (λ s. step_of s ≡ max step 1) }
        ensures stalled { IfOk result (λ s. stalled_of s ≡ 0) }
    {
        let mut text = Vec::new(alloc);
        text.extend_from_slice(bytes)?;
        Ok(Script {
            text,
            at: 0,
            fails: false,
            written: Vec::new(alloc),
            writes_left: None,
            step,
            failed_reads: Count::Never,
            stalled_writes: Count::Never,
        })
    }

    /// Makes every write fail from the call with this number on, from 1; and every read, if all reads
    /// before it moved a whole step. A reader that ends before that call never fails.
    pub fn failing_at(mut self, call: u64) -> Script
        ensures ahead { ahead_of result ≡ failing call (step_of self) (ahead_of self) }
        ensures taken { taken_of result ≡ taken_of self }
        ensures writes { writes_of result ≡ Some (call - 1) }
        ensures stalled { stalled_of result ≡ stalled_of self }
    {
        self.writes_left = Some(call.saturating_sub(1));
        let left = self.text[self.at..].len();
        if let Some(given) = given_before(call, self.step.max(1), left) {
            let end = self.at + given;
            self.text.truncate(end);
            self.fails = true;
        }
        self
    }

    /// Returns the bytes that were written.
    pub fn taken(&self) -> &[u8]
        ensures { result.now ≡ taken_of self.now }
    {
        self.written.as_slice()
    }
}

// Returns how many of the bytes that are left the reads before this one return; `None` if they
// return all and the end too.
fn given_before(call: u64, step: usize, left: usize) -> Option<usize>
    requires { 0 < step }
    ensures { result ≡ given_before_call call step left }
{
    let call = call as usize;
    if call <= 1 {
        return Some(0);
    }
    if (call - 2).saturating_mul(step) < left {
        return Some((call - 1).saturating_mul(step).min(left));
    }
    None
}

impl Feed for Script {
    ghost use Rattle.audit_files.specs.Script.{ahead_of};

    ghost ahead = { λ s. Some (ahead_of s) };

    ghost failed_reads = { λ s. times s.failed_reads };

    #[tactic(auto, using(crate::proofs::WholeReads::front_and_rest))]
    fn read(&mut self, buffer: &mut [u8]) -> Result<usize, Failed> {
        let count = copy_front(&self.text[self.at..], buffer, self.step.max(1));
        if self.fails && self.at == self.text.len() {
            self.failed_reads.add_one();
            return Err(Failed);
        }
        self.at += count;
        Ok(count)
    }
}

// Copies the first bytes to the front of the buffer, as many as fit and at most `most`, and returns
// their number.
fn copy_front(bytes: &[u8], buffer: &mut [u8], most: usize) -> usize
    requires { 0 < most }
    ensures given { result ≤ length bytes.now }
    ensures room { result ≤ length buffer.new }
    ensures copied { take result buffer.new ≡ take result bytes.now }
    ensures none { result ≡ 0 → 0 < length buffer.new → length bytes.now ≡ 0 }
{
    let count = bytes.len().min(buffer.len()).min(most);
    buffer[..count].copy_from_slice(&bytes[..count]);
    count
}

impl Sink for Script {
    ghost use Rattle.audit_files.specs.Script.{stalled_of, taken_of};

    ghost taken = { λ s. Some (taken_of s) };

    ghost stalled_writes = { stalled_of };

    fn write(&mut self, bytes: &[u8]) -> Result<usize, Failed> {
        match self.take(bytes) {
            Ok(count) if count > 0 => Ok(count),
            result => {
                self.stalled_writes.add_one();
                result
            }
        }
    }
}

impl Script {
    ghost use Rattle.audit_files.specs.Script.{stalled_of, taken_of, writes_of};
    ghost use Rattle.audit_files.specs.Body.Sinking.{CountsDown};

    // Writes once, without counting a failure.
    fn take(&mut self, bytes: &[u8]) -> Result<usize, Failed>
        ensures bound { IfOk result (λ n. n ≤ length bytes.now) }
        ensures ok { IfOk result (λ n. taken_of self.new ≡ taken_of self.old ++ take n bytes.now) }
        ensures err { OnErr result (taken_of self.new ≡ taken_of self.old) }
        ensures same { stalled_of self.new ≡ stalled_of self.old }
        ensures calls { CountsDown (writes_of self.old) (writes_of self.new) result }
    {
        match self.writes_left {
            Some(0) => return Err(Failed),
            Some(left) => self.writes_left = Some(left - 1),
            None => {}
        }
        let count = bytes.len().min(self.step);
        match self.written.extend_from_slice(&bytes[..count]) {
            Ok(()) => Ok(count),
            Err(_) => Err(Failed),
        }
    }
}
