//! The answer to a status text.
ghost use Rattle.std.specs.Prelude.{◌≡◌};
ghost use Rattle.openpgp_status.specs.Judging.{judge_of};

use crate::Judged;
use crate::seen::Seen;
use byte_cuts::cut_at;

/// What gpgv's status output says of a signature: the first that applies of the rules.
///
/// It takes no memory, and always has its answer.
pub fn judge(status: &[u8]) -> Judged
    ensures exact { result ≡ judge_of status.now }
{
    let mut seen = Seen::NOTHING;
    let mut number = 1;
    let mut text = status;
    'lines: while let Some((line, rest)) = cut_at(text, b'\n') {
        seen = seen.with(number, line);
        number += 1;
        text = rest;
    }
    seen.with(number, text).judged()
}
