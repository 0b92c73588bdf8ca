// Fixed decimal fields, and the place values that reading and printing share.
ghost use Rattle.std.specs.Prelude.{◌≡◌, ◌<◌, ◌^◌};
ghost use Rattle.text.specs.Layout.{most_digits};
ghost use Rattle.text.specs.Decimal.{all_digits, is_numeral, value, field_of, BlanksEnd, FewDigits};

use crate::layout::MOST_DIGITS;

// Place values: entry k is 10 ^ k. 01 asks for a constant array of them.
const PLACES: [u64; MOST_DIGITS] = [1, 10, 100, 1000, 10000];

// Why a field has no number: it holds none, or one above the limit.
#[derive(Clone, Copy)]
pub enum FieldError {
    Broken,
    Large,
}

// The value of place k.
pub(crate) fn place(k: usize) -> u64
    requires { k < most_digits }
    ensures { result ≡ 10 ^ k }
{
    PLACES[k]
}

// Where the blanks before a field's number end.
fn blanks(f: &[u8]) -> usize
    ensures { BlanksEnd f.now result }
{
    f.iter().position(|b| *b != b' ').unwrap_or(f.len())
}

fn all_digits(f: &[u8]) -> bool
    ensures { result ≡ all_digits f.now }
{
    f.iter().all(|b| b.is_ascii_digit())
}

// Digits, at least one, and no needless leading zero.
#[tactic(auto, unfolding(crate::specs::Decimal::is_numeral, crate::specs::Decimal::leads_well))]
fn is_numeral(f: &[u8]) -> bool
    ensures { result ≡ is_numeral f.now }
{
    !f.is_empty() && (f.len() == 1 || f[0] != b'0') && all_digits(f)
}

// The sum of the digits, each times its place value.
fn value_of(f: &[u8]) -> u64
    requires { FewDigits f.now }
    ensures { result ≡ value f.now }
{
    let mut sum: u64 = 0;
    for i in 0..f.len() {
        let digit = (f[i] - b'0') as u64;
        sum += digit * place(f.len() - 1 - i);
    }
    sum
}

// The number of a field, where numbers end at a limit. More digits than any number of 16 bits has, with no needless
// zero, are above every limit, so no sum overflows.
#[tactic(auto, using(crate::proofs::FieldLaws::field_rules))]
pub fn read_field(f: &[u8], limit: u16) -> Result<u16, FieldError>
    ensures { result ≡ field_of limit f.now }
{
    let from = blanks(f);
    let digits = &f[from..];
    if !is_numeral(digits) {
        return Err(FieldError::Broken);
    }
    if MOST_DIGITS < digits.len() {
        return Err(FieldError::Large);
    }
    let n = value_of(digits);
    if (limit as u64) < n {
        return Err(FieldError::Large);
    }
    Ok(n as u16)
}
