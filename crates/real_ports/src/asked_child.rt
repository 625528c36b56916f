//! A child of git in one directory, and how far its answer was read.
ghost use Rattle.std.specs.Prelude.{◌≡◌, ◌↔◌, ◌<◌, ℕ, length, take, Some, Ok, IfOk, OnOk, IfSome, IsTrue, false, string_bytes};
ghost use Rattle.std.specs.Io.{ReadsAtMost};
ghost use Rattle.std.specs.Io.Buffered.{reader_remaining};
ghost use Rattle.std.specs.Io.KnownBytes.{Appends, Consumes};
ghost use Rattle.real_ports.specs.Put.{PipeTakes, name_line};
ghost use Rattle.real_ports.specs.Rest.{MayAskOn, body_after, is_to_come};
ghost use Rattle.real_ports.specs.ChildGit.{Begins, Follows};

use crate::calls::git_call;
use crate::header_line::HeaderLine;
use crate::rest::{Rest, after_body};
use crate::running_child::RunningChild;
use std::io;
use std::io::{BufReader, ErrorKind, Read, Write};
use std::process::{OpenProcess, Processes, Stdio};

/// A child of git, the directory that it serves, its output, of which more may be read than was asked for yet, and
/// what is to come of its answer. They are given up together.
#[derive(Drop)]
pub struct AskedChild<P: OpenProcess + Drop> {
    pub dir: String,
    pub output: BufReader<P::Stdout>,
    pub running: RunningChild<P>,
    pub rest: Rest,
    pub header: HeaderLine,
}

// Starts git in a directory.
fn start<R: Processes + AllocGlobal>(
    rt: &R,
    program: &str,
    dir: &str,
) -> io::Result<AskedChild<R::Started>>
    ensures { IfOk result (λ asked. MayAskOn (string_bytes asked.dir) asked.rest dir.now) }
{
    let child = git_call(rt.alloc(), program, dir)?
        .stdin(Stdio::piped())
        .stdout(Stdio::piped())
        .stderr(Stdio::null())
        .spawn(rt)?;
    let mut running = RunningChild { child };
    let Some(output) = running.child.stdout.take() else {
        return Err(io::Error::from(ErrorKind::BrokenPipe));
    };
    Ok(AskedChild {
        dir: String::from_str(rt.alloc(), dir)?,
        output: BufReader::new(rt.alloc(), output)?,
        running,
        rest: Rest::Nothing,
        header: HeaderLine::new(),
    })
}

// The child that was asked last, where it may be asked on in this directory.
fn kept<P: OpenProcess + Drop>(last: Option<AskedChild<P>>, dir: &str) -> Option<AskedChild<P>>
    ensures only { IfSome result (λ asked. (last ≡ Some asked) × MayAskOn (string_bytes asked.dir) asked.rest dir.now) }
    ensures kept { IfSome last (λ asked. MayAskOn (string_bytes asked.dir) asked.rest dir.now → result ≡ Some asked) }
{
    let asked = last?;
    if asked.may_ask_on(dir) {
        Some(asked)
    } else {
        None
    }
}

/// A child that may be asked in a directory: the one that was asked last, where it serves the directory and its answer
/// was read to the end, and else a new one.
pub fn child_for<R: Processes + AllocGlobal>(
    rt: &R,
    program: &str,
    last: Option<AskedChild<R::Started>>,
    dir: &str,
) -> io::Result<AskedChild<R::Started>>
    ensures ready { IfOk result (λ asked. MayAskOn (string_bytes asked.dir) asked.rest dir.now) }
    ensures kept { IfSome last (λ asked. MayAskOn (string_bytes asked.dir) asked.rest dir.now → result ≡ Ok asked) }
{
    match kept(last, dir) {
        Some(asked) => Ok(asked),
        None => start(rt, program, dir),
    }
}

/// The longest line of a name: 1,024 bytes and a line feed.
const LONGEST: usize = 1025;

// Writes the line of a name in one call, so that its line feed never waits for another. A longer name is none that git is asked.
fn write_line<W: Write>(pipe: &mut W, name: &[u8]) -> io::Result<()>
    ensures { OnOk result (Appends (W.contents pipe.old) (W.contents pipe.new) (name_line name.now)) }
{
    let len = name.len();
    if len >= LONGEST {
        return Err(io::Error::from(ErrorKind::InvalidInput));
    }
    let mut line = [0u8; LONGEST];
    line[..len].copy_from_slice(name);
    line[len..len + 1].copy_from_slice(b"\n");
    pipe.write_all(&line[..len + 1])
}

// Reads at least one byte. The end is an error.
fn read_some<O: Read>(output: &mut O, buf: &mut [u8]) -> io::Result<usize>
    ensures bound { ReadsAtMost result buf.new }
    ensures some { IfOk result (λ n. 0 < n) }
    ensures told { IfOk result (λ n. Consumes (O.remaining output.old) (O.remaining output.new) (take n buf.new)) }
{
    for _ in 0..u64::MAX {
        match output.read(buf) {
            Ok(0) => return Err(io::Error::from(ErrorKind::UnexpectedEof)),
            Ok(n) => return Ok(n),
            Err(e) if e.kind() == ErrorKind::Interrupted => {}
            Err(e) => return Err(e),
        }
    }
    Err(io::Error::from(ErrorKind::TimedOut))
}

impl<P: OpenProcess + Drop> AskedChild<P> {
    // Whether the child may be asked on in this directory.
    fn may_ask_on(&self, dir: &str) -> bool
        ensures { IsTrue result ↔ MayAskOn (string_bytes self.now.dir) self.now.rest dir.now }
    {
        self.rest == Rest::Nothing && self.dir.as_str() == dir
    }

    /// Writes a name to the child, of whose last answer nothing is left. Whether it could be put or not, its answer is to come.
    pub fn write_name(&mut self, name: &[u8]) -> io::Result<()>
        requires { self.old.rest ≡ Rest.Nothing }
        ensures dir { self.new.dir ≡ self.old.dir }
        ensures output { self.new.output ≡ self.old.output }
        ensures rest { self.new.rest ≡ Rest.Header }
        ensures header { Begins self.new.header name.now }
        ensures written { OnOk result (PipeTakes P.Stdin.contents self.old.running.child.stdin self.new.running.child.stdin (name_line name.now)) }
    {
        self.rest = Rest::Header;
        self.header.begin(name);
        let Some(input) = self.running.child.stdin.as_mut() else {
            return Err(io::Error::from(ErrorKind::BrokenPipe));
        };
        write_line(input, name)
    }

    // Reads what is left of the header line, and maybe more.
    fn read_header_part(&mut self, buf: &mut [u8]) -> io::Result<usize>
        ensures bound { ReadsAtMost result buf.new }
        ensures some { IfOk result (λ n. 0 < n) }
        ensures dir { self.new.dir ≡ self.old.dir }
        ensures told { IfOk result (λ n. Consumes (reader_remaining P.Stdout.remaining self.old.output) (reader_remaining P.Stdout.remaining self.new.output) (take n buf.new)) }
        ensures follows { IfOk result (λ n. Follows self.old.header self.new.header buf.new n self.new.rest) }
    {
        let count = read_some(&mut self.output, buf)?;
        let (used, rest) = self.header.follow(&buf[..count]);
        self.rest = rest.after(count - used);
        Ok(count)
    }

    // Reads some of so many bytes, and no byte beyond them.
    fn read_body_part(&mut self, left: u64, buf: &mut [u8]) -> io::Result<usize>
        ensures bound { ReadsAtMost result buf.new }
        ensures some { IfOk result (λ n. 0 < n) }
        ensures told { IfOk result (λ n. Consumes (reader_remaining P.Stdout.remaining self.old.output) (reader_remaining P.Stdout.remaining self.new.output) (take n buf.new)) }
        ensures dir { self.new.dir ≡ self.old.dir }
        ensures rest { IfOk result (λ n. self.new.rest ≡ body_after left n) }
    {
        let most = u64::min(left, buf.len() as u64) as usize;
        let count = read_some(&mut self.output, &mut buf[..most])?;
        self.rest = after_body(left, count);
        Ok(count)
    }

    /// Reads some of what is left of the answer: none only at its end, or where the buffer is empty.
    pub fn read(&mut self, buf: &mut [u8]) -> io::Result<usize>
        ensures bound { ReadsAtMost result buf.new }
        ensures some { IfOk result (λ n. 0 < length buf.old → IsTrue (is_to_come self.old.rest) → 0 < n) }
        ensures told { IfOk result (λ n. Consumes (reader_remaining P.Stdout.remaining self.old.output) (reader_remaining P.Stdout.remaining self.new.output) (take n buf.new)) }
        ensures idle { IfOk result (λ n. is_to_come self.old.rest ≡ false → (n ≡ 0) × (self.new.rest ≡ self.old.rest)) }
        ensures dir { self.new.dir ≡ self.old.dir }
        ensures header { IfOk result (λ n. 0 < length buf.old → self.old.rest ≡ Rest.Header → Follows self.old.header self.new.header buf.new n self.new.rest) }
        ensures body { IfOk result (λ n. (left : ℕ) → 0 < length buf.old → self.old.rest ≡ Rest.Body left → self.new.rest ≡ body_after left n) }
    {
        if buf.is_empty() {
            return Ok(0);
        }
        match self.rest {
            Rest::Nothing | Rest::Unknown => Ok(0),
            Rest::Header => self.read_header_part(buf),
            Rest::Body(left) => self.read_body_part(left, buf),
        }
    }
}
