//! The rules of two blocks, from the last back.

ghost use Rattle.std.specs.Prelude.{ℕ, ◌≡◌, ◌*◌, ◌<◌, ◌≤◌, false, length};
ghost use Rattle.std.specs.Int.{bit_at};
ghost use Rattle.sudo_verdict.specs.Body.Blocks.{both_have};

// Returns the position after the last set bit before `end`, or 0 if there is none.
fn last_bit_before(word: u64, end: usize) -> usize
    requires { end ≤ 64 }
    ensures within { result ≤ end }
    ensures none { (i : ℕ) → result ≤ i → i < end → bit_at word i ≡ 0 }
{
    if word == 0 {
        return 0;
    }
    let low = if end < 64 { word % (1 << end) } else { word };
    64 - low.leading_zeros() as usize
}

/// Returns the position after the last rule before `end` that is in both blocks, or 0 if there is none.
pub(crate) fn last_in_both_before(users: &[u64], commands: &[u64], end: usize) -> usize
    requires users { end ≤ 64 * length users.now }
    requires commands { end ≤ 64 * length commands.now }
    ensures within { result ≤ end }
    ensures none { (i : ℕ) → result ≤ i → i < end → both_have users.now commands.now i ≡ false }
{
    let mut end = end;
    while end > 0 {
        let index = (end - 1) / 64;
        let last = last_bit_before(users[index] & commands[index], end - 64 * index);
        if last > 0 {
            return 64 * index + last;
        }
        end = 64 * index;
    }
    0
}
