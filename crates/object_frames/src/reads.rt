//! Reading a git port in pieces.
ghost use Rattle.std.specs.Prelude.{◌≡◌, ◌≤◌, ◌<◌, [], ◌∷◌, ◌++◌, length, take, IfOk, IsTrue, MatchOption};
ghost use Rattle.child_ports.specs.Causes.{FailsByCount};
ghost use Rattle.object_frames.specs.Line.{IsPiece};

use child_ports::{Failed, GitPort};

/// Reads until the buffer is full or the answer is at its end.
pub fn read_full<G: GitPort>(git: &mut G, buf: &mut [u8]) -> Result<usize, Failed>
    ensures told { G.tells git.new ≡ G.tells git.old }
    ensures table { G.table git.new ≡ G.table git.old }
    ensures named { G.named git.new ≡ G.named git.old }
    ensures room { IfOk result (λ n. n ≤ length buf.old) }
    ensures bytes { IfOk result (λ n. IsTrue (G.tells git.old) → G.pending git.old ≡ take n buf.new ++ G.pending git.new) }
    ensures short { IfOk result (λ n. IsTrue (G.tells git.old) → n < length buf.old → G.pending git.new ≡ []) }
    ensures cause { FailsByCount (G.faults git.old) (G.faults git.new) result }
{
    let mut at = 0;
    while at < buf.len() {
        let n = git.read(&mut buf[at..])?;
        if n == 0 {
            return Ok(at);
        }
        at += n;
    }
    Ok(at)
}

/// The next byte of the answer, if it isn't at its end.
pub fn next_byte<G: GitPort>(git: &mut G) -> Result<Option<u8>, Failed>
    ensures told { G.tells git.new ≡ G.tells git.old }
    ensures table { G.table git.new ≡ G.table git.old }
    ensures named { G.named git.new ≡ G.named git.old }
    ensures byte { IfOk result (λ next. IsTrue (G.tells git.old) → MatchOption next ((G.pending git.old ≡ []) × (G.pending git.new ≡ [])) (λ b. G.pending git.old ≡ b ∷ G.pending git.new)) }
    ensures cause { FailsByCount (G.faults git.old) (G.faults git.new) result }
{
    let mut byte = [0u8; 1];
    let n = git.read(&mut byte)?;
    if n == 0 {
        return Ok(None);
    }
    Ok(Some(byte[0]))
}

/// Reads up to the first end of a line, as far as there is room.
pub fn read_line<G: GitPort>(
    git: &mut G,
    line: &mut [u8; 1035],
    room: usize,
) -> Result<usize, Failed>
    requires { room ≤ 1035 }
    ensures told { G.tells git.new ≡ G.tells git.old }
    ensures table { G.table git.new ≡ G.table git.old }
    ensures named { G.named git.new ≡ G.named git.old }
    ensures room { IfOk result (λ n. n ≤ room) }
    ensures bytes { IfOk result (λ n. IsTrue (G.tells git.old) → G.pending git.old ≡ take n line.new ++ G.pending git.new) }
    ensures piece { IfOk result (λ n. IsTrue (G.tells git.old) → IsPiece room (take n line.new) (G.pending git.new)) }
    ensures cause { FailsByCount (G.faults git.old) (G.faults git.new) result }
{
    let mut at = 0;
    'bytes: while at < room {
        let Some(byte) = next_byte(git)? else {
            return Ok(at);
        };
        line[at] = byte;
        at += 1;
        if byte == b'\n' {
            return Ok(at);
        }
    }
    Ok(at)
}
