// Longest list: the most rings that a range can have.
ghost use Rattle.std.specs.Prelude.{◌≡◌, ◌<◌};
ghost use Rattle.listing.specs.LongestList.{longest, longest_answer};

use rings::Refusal;
use rings::checks::is_window;

// The most rings of n days: n(n+1)/2.
#[tactic(auto, unfolding(crate::specs::LongestList::longest))]
pub(crate) fn most(n: usize) -> u32
    requires { n < 1025 }
    ensures { result ≡ longest n }
{
    let days = n as u32;
    days * (days + 1) / 2
}

// The most rings that the range [ts, te] can have.
pub fn longest_list(ts: u16, te: u16) -> Result<usize, Refusal>
    ensures { result ≡ longest_answer ts te }
{
    if is_window(ts, te) {
        let days = (te - ts + 1) as usize;
        return Ok(most(days) as usize);
    }
    Err(Refusal::BadRange)
}
