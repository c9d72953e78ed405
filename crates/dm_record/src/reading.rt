ghost use Rattle.std.specs.Prelude.{◌≡◌, ◌+◌, ◌-◌, ◌*◌, ◌^◌, ◌<◌, ◌≤◌, ℕ, true, false, length, IfSome, IfNone, IfOk, IfErr};
ghost use Rattle.dm_record.specs.Form.{Form, walk, number, span, is_alive};
ghost use Rattle.dm_record.specs.Stopping.{stopped};

/// Why no value stands there.
#[derive(Clone, Copy, Debug, PartialEq, Eq)]
pub enum Stop {
    Short,
    Bad { place: usize },
}

/// Why no record was read.
#[derive(Clone, Copy, Debug, PartialEq, Eq)]
pub enum Fault {
    At(Stop),
    Memory,
}

pub(crate) fn span_of(width: usize) -> u128
    requires { width ≤ 7 }
    ensures value { result ≡ span width }
    ensures some { 0 < result }
    ensures most { result ≤ 2 ^ 56 }
{
    match width {
        0 => 1,
        1 => 0x100,
        2 => 0x1_0000,
        3 => 0x100_0000,
        4 => 0x1_0000_0000,
        5 => 0x100_0000_0000,
        6 => 0x1_0000_0000_0000,
        7 => 0x100_0000_0000_0000,
        _ => unreachable!(),
    }
}

/// The number with one byte more, if some number from low to high still begins so.
fn with_byte(low: u64, high: u64, so_far: u64, byte: u8, width: usize) -> Option<u64>
    requires { width ≤ 7 }
    ensures some { IfSome result (λ n. (n ≡ so_far * 256 + byte) × (is_alive low high (so_far * 256 + byte) width ≡ true)) }
    ensures none { IfNone result (is_alive low high (so_far * 256 + byte) width ≡ false) }
{
    let next = so_far as u128 * 256 + byte as u128;
    if next > high as u128 {
        return None;
    }
    let first = next * span_of(width);
    if first > high as u128 || first + span_of(width) <= low as u128 {
        return None;
    }
    Some(next as u64)
}

#[tactic(auto, using(crate::proofs::Walks::number_none, crate::proofs::Walks::number_short))]
/// Reads on a number of which these bytes were read so far.
fn number_behind(
    bytes: &[u8],
    at: usize,
    low: u64,
    high: u64,
    so_far: u64,
    width: usize,
) -> Result<u64, Stop>
    requires width { width ≤ 8 }
    requires at { at ≤ length bytes.now }
    requires alive { is_alive low high so_far width ≡ true }
    ensures least { IfOk result (λ n. low ≤ n) }
    ensures most { IfOk result (λ n. n ≤ high) }
    ensures ok { IfOk result (λ n. (next : ℕ → Form) → walk (number low high so_far width next) bytes.now at ≡ walk (next n) bytes.now (at + width)) }
    ensures within { IfOk result (λ n. at + width ≤ length bytes.now) }
    ensures err { IfErr result (λ stop. (next : ℕ → Form) → walk (number low high so_far width next) bytes.now at ≡ stopped stop) }
{
    if width == 0 {
        return Ok(so_far);
    }
    if at >= bytes.len() {
        return Err(Stop::Short);
    }
    match with_byte(low, high, so_far, bytes[at], width - 1) {
        Some(next) => number_behind(bytes, at + 1, low, high, next, width - 1),
        None => Err(Stop::Bad { place: at }),
    }
}

/// The number of which these bytes were read so far and so many more stand there.
#[tactic(auto, using(crate::proofs::Walks::number_none))]
fn whole_behind(bytes: &[u8], at: usize, so_far: u64, width: usize) -> u64
    requires within { at + width ≤ length bytes.now }
    requires fits { so_far * span width + span width ≤ 2 ^ 64 }
    ensures least { so_far * span width ≤ result }
    ensures most { result < so_far * span width + span width }
    ensures walked { (low high : ℕ) (next : ℕ → Form) → low ≤ result → result ≤ high →
        walk (number low high so_far width next) bytes.now at ≡ walk (next result) bytes.now (at + width) }
{
    if width == 0 {
        return so_far;
    }
    whole_behind(bytes, at + 1, so_far * 256 + bytes[at] as u64, width - 1)
}

/// Reads a number of so many bytes, from low to high.
#[tactic(auto, using(crate::proofs::Walks::span_most))]
pub(crate) fn number(
    bytes: &[u8],
    at: usize,
    low: u64,
    high: u64,
    width: usize,
) -> Result<u64, Stop>
    requires width { width ≤ 8 }
    requires at { at ≤ length bytes.now }
    requires low { low < span width }
    ensures ok { IfOk result (λ n. (next : ℕ → Form) → walk (number low high 0 width next) bytes.now at ≡ walk (next n) bytes.now (at + width)) }
    ensures within { IfOk result (λ n. at + width ≤ length bytes.now) }
    ensures least { IfOk result (λ n. low ≤ n) }
    ensures most { IfOk result (λ n. n ≤ high) }
    ensures err { IfErr result (λ stop. (next : ℕ → Form) → walk (number low high 0 width next) bytes.now at ≡ stopped stop) }
{
    if width <= bytes.len() - at {
        let n = whole_behind(bytes, at, 0, width);
        if low <= n && n <= high {
            return Ok(n);
        }
    }
    // Byte by byte it is told where the number ends, or goes wrong.
    number_behind(bytes, at, low, high, 0, width)
}
