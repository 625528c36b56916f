//! A child `git cat-file --batch`, asked one name at a time.
ghost use Rattle.std.specs.Prelude.{◌≡◌, ◌≤◌, ◌<◌, ℕ, [], None, false, length, take, IfOk, OnOk, OnErr, IsTrue, IsSomeAnd, IfSome, string_bytes};
ghost use Rattle.std.specs.Io.Buffered.{reader_remaining};
ghost use Rattle.std.specs.Io.KnownBytes.{Consumes};
ghost use Rattle.child_ports.specs.Causes.{FailsByCount};
ghost use Rattle.child_ports.specs.Named.{after_name};
ghost use Rattle.real_ports.specs.ChildGit.{IsAsked, Follows};
ghost use Rattle.real_ports.specs.Put.{PipeEndsIn, PipeTakes, name_line};
ghost use Rattle.real_ports.specs.Rest.{MayAskOn, body_after, is_to_come};

use crate::asked_child::{AskedChild, child_for};
use crate::counting::counted_call;
use crate::rest::Rest;
use child_ports::{Failed, GitPort, after_name};
use std::alloc::AllocError;
use std::io;
use std::process::Processes;

/// Git as a child, which is kept while the directory stays the same.
///
/// It follows the header line of each answer, and so knows where the answer ends: past it a read gives nothing, and
/// the child isn't waited for. Where an answer wasn't read to its end, or was of no form, the next question goes to
/// a new child. Objects are taken as they are, without replacements; a partial clone isn't completed.
#[derive(Drop)]
pub struct ChildGit<R: Processes + AllocGlobal + Drop> {
    rt: R,
    program: String,
    child: Option<AskedChild<R::Started>>,
    faults: u64,
    named: u64,
}

impl<R: Processes + AllocGlobal + Drop> ChildGit<R> {
    /// Git by this program. No child is started yet.
    pub fn new(rt: R, program: &str) -> Result<ChildGit<R>, AllocError> {
        let program = String::from_str(rt.alloc(), program)?;
        Ok(ChildGit {
            rt,
            program,
            child: None,
            faults: 0,
            named: 0,
        })
    }

    // Writes a name to the child of the directory, which is started where there is none of use. Where that fails
    // the child is given up.
    fn try_ask(&mut self, dir: &str, name: &[u8]) -> io::Result<()>
        ensures faults { self.new.faults ≡ self.old.faults }
        ensures named { self.new.named ≡ self.old.named }
        ensures asked { OnOk result (IsSomeAnd self.new.child (λ asked. IsAsked asked.dir asked.rest asked.header dir.now name.now)) }
        ensures written { OnOk result (IsSomeAnd self.new.child (λ asked. PipeEndsIn R.Started.Stdin.contents asked.running.child.stdin (name_line name.now))) }
        ensures asked_on { OnOk result (IfSome self.old.child (λ last. MayAskOn (string_bytes last.dir) last.rest dir.now →
            IsSomeAnd self.new.child (λ asked. PipeTakes R.Started.Stdin.contents last.running.child.stdin asked.running.child.stdin (name_line name.now)))) }
        ensures output { OnOk result (IfSome self.old.child (λ last. MayAskOn (string_bytes last.dir) last.rest dir.now →
            IsSomeAnd self.new.child (λ asked. asked.output ≡ last.output))) }
        ensures given_up { OnErr result (self.new.child ≡ None) }
    {
        let last = self.child.take();
        let mut asked = child_for(&self.rt, self.program.as_str(), last, dir)?;
        asked.write_name(name)?;
        self.child = Some(asked);
        Ok(())
    }

    // Reads some of what is left of the answer. Where that fails the child is given up.
    fn try_read(&mut self, buf: &mut [u8]) -> io::Result<usize>
        ensures faults { self.new.faults ≡ self.old.faults }
        ensures named { self.new.named ≡ self.old.named }
        ensures room { IfOk result (λ n. n ≤ length buf.old) }
        ensures some { IfOk result (λ n. IfSome self.old.child (λ asked. 0 < length buf.old → IsTrue (is_to_come asked.rest) → 0 < n)) }
        ensures told { IfOk result (λ n. IfSome self.old.child (λ last. IsSomeAnd self.new.child (λ asked.
            Consumes (reader_remaining R.Started.Stdout.remaining last.output) (reader_remaining R.Started.Stdout.remaining asked.output) (take n buf.new)))) }
        ensures header { IfOk result (λ n. IfSome self.old.child (λ last. 0 < length buf.old → last.rest ≡ Rest.Header →
            IsSomeAnd self.new.child (λ asked. Follows last.header asked.header buf.new n asked.rest))) }
        ensures body { IfOk result (λ n. IfSome self.old.child (λ last. (left : ℕ) → 0 < length buf.old → last.rest ≡ Rest.Body left →
            IsSomeAnd self.new.child (λ asked. asked.rest ≡ body_after left n))) }
        ensures given_up { OnErr result (self.new.child ≡ None) }
    {
        let Some(asked) = self.child.as_mut() else {
            return Ok(0);
        };
        match asked.read(buf) {
            Ok(count) => Ok(count),
            Err(e) => {
                self.child = None;
                Err(e)
            }
        }
    }
}

impl<R: Processes + AllocGlobal + Drop> GitPort for ChildGit<R> {
    ghost faults = { λ git. git.faults };

    ghost tells = { λ _. false };

    ghost table = { λ _. [] };

    ghost named = { λ git. git.named };

    ghost pending = { λ _. [] };

    fn ask(&mut self, dir: &str, name: &[u8]) -> Result<(), Failed>
        ensures named { self.new.named ≡ after_name name.now self.old.named }
        ensures cause { FailsByCount self.old.faults self.new.faults result }
        ensures asked { OnOk result (IsSomeAnd self.new.child (λ asked. IsAsked asked.dir asked.rest asked.header dir.now name.now)) }
        ensures written { OnOk result (IsSomeAnd self.new.child (λ asked. PipeEndsIn R.Started.Stdin.contents asked.running.child.stdin (name_line name.now))) }
        ensures asked_on { OnOk result (IfSome self.old.child (λ last. MayAskOn (string_bytes last.dir) last.rest dir.now →
            IsSomeAnd self.new.child (λ asked. PipeTakes R.Started.Stdin.contents last.running.child.stdin asked.running.child.stdin (name_line name.now)))) }
        ensures output { OnOk result (IfSome self.old.child (λ last. MayAskOn (string_bytes last.dir) last.rest dir.now →
            IsSomeAnd self.new.child (λ asked. asked.output ≡ last.output))) }
        ensures given_up { OnErr result (self.new.child ≡ None) }
    {
        self.named = after_name(self.named, name);
        let answer = self.try_ask(dir, name);
        counted_call(answer, &mut self.faults)
    }

    fn read(&mut self, buf: &mut [u8]) -> Result<usize, Failed>
        ensures named { self.new.named ≡ self.old.named }
        ensures room { IfOk result (λ n. n ≤ length buf.old) }
        ensures cause { FailsByCount self.old.faults self.new.faults result }
        ensures some { IfOk result (λ n. IfSome self.old.child (λ asked. 0 < length buf.old → IsTrue (is_to_come asked.rest) → 0 < n)) }
        ensures told { IfOk result (λ n. IfSome self.old.child (λ last. IsSomeAnd self.new.child (λ asked.
            Consumes (reader_remaining R.Started.Stdout.remaining last.output) (reader_remaining R.Started.Stdout.remaining asked.output) (take n buf.new)))) }
        ensures header { IfOk result (λ n. IfSome self.old.child (λ last. 0 < length buf.old → last.rest ≡ Rest.Header →
            IsSomeAnd self.new.child (λ asked. Follows last.header asked.header buf.new n asked.rest))) }
        ensures body { IfOk result (λ n. IfSome self.old.child (λ last. (left : ℕ) → 0 < length buf.old → last.rest ≡ Rest.Body left →
            IsSomeAnd self.new.child (λ asked. asked.rest ≡ body_after left n))) }
        ensures given_up { OnErr result (self.new.child ≡ None) }
    {
        let answer = self.try_read(buf);
        counted_call(answer, &mut self.faults)
    }
}
