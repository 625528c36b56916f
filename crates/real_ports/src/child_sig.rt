//! A child `gpgv`, started for each question.
ghost use Rattle.std.specs.Prelude.{◌≡◌, [], true, false, codes, Err, IfOk, OnOk, OnErr, IsSome, IsSomeAnd, string_bytes};
ghost use Rattle.std.specs.Path.{IsAbsoluteOf, path_buf_bytes};
ghost use Rattle.child_ports.specs.Causes.{PortFailsByCount, one_more};
ghost use Rattle.real_ports.specs.ChildSig.{bytes_of};
ghost use Rattle.real_ports.specs.Heard.{IsOutput};
ghost use Rattle.real_ports.specs.Put.{file_in};

use crate::counting::counted;
use crate::gpgv_answer::ask_gpgv;
use crate::gpgv_files::{KeyringFile, put_keyring};
use crate::locking::take_lock;
use child_ports::{Bytes, PortFail, SigPort};
use std::alloc::{AllocError, Global};
use std::fs::File;
use std::io;
use std::io::ErrorKind;
use std::process::Processes;
use std::rt::{Env, Files};

/// gpgv as a child, which reads its keyring, signature and payload from files in `ROOT/work`.
///
/// A file lock on `ROOT/work/lock` is held from the first keyring on, and asked for without waiting: while another
/// process holds it a keyring can't be loaded.
#[derive(Drop)]
pub struct ChildSig<R: Processes + Files<File = File> + Env + AllocGlobal + Drop> {
    rt: R,
    program: String,
    work: String,
    lock: Option<File>,
    keyring: Option<KeyringFile<File>>,
    // whether the file in the folder holds the keyring that was loaded last
    stands: bool,
    asked: u64,
    faults: u64,
}

impl<R: Processes + Files<File = File> + Env + AllocGlobal + Drop> ChildSig<R> {
    /// gpgv by this program, with its files below this root. No file is made yet.
    pub fn new(rt: R, program: &str, root: &str) -> Result<ChildSig<R>, AllocError>
        ensures unloaded { IfOk result (λ sig. sig.stands ≡ false) }
    {
        let program = String::from_str(rt.alloc(), program)?;
        let work = format!(in rt.alloc(); "{root}/work")?;
        Ok(ChildSig {
            rt,
            program,
            work,
            lock: None,
            keyring: None,
            stands: false,
            asked: 0,
            faults: 0,
        })
    }
}

impl<R: Processes + Files<File = File> + Env + AllocGlobal + Drop> SigPort for ChildSig<R> {
    ghost faults = { λ sig. sig.faults };

    ghost tells = { λ _. false };

    ghost table = { λ _. [] };

    ghost loaded = { λ sig. bytes_of sig.keyring };

    ghost asked = { λ sig. sig.asked };

    // A keyring whose load failed may stand half written: nothing is asked under it.
    fn load(&mut self, keyring: &[u8]) -> Result<(), PortFail>
        ensures ok { OnOk result (bytes_of self.new.keyring ≡ keyring.now) }
        ensures err { OnErr result (self.new.keyring ≡ self.old.keyring) }
        ensures asked { self.new.asked ≡ self.old.asked }
        ensures cause { PortFailsByCount self.old.faults self.new.faults result }
        ensures path { OnOk result (IsSomeAnd self.new.keyring (λ file. IsAbsoluteOf (file_in (string_bytes self.old.work) (codes "keyring")) (path_buf_bytes file.put.path))) }
        ensures locked { OnOk result (IsSome self.new.lock) }
        ensures stands { OnOk result (self.new.stands ≡ true) }
        ensures falls { OnErr result (self.new.stands ≡ false) }
    {
        self.stands = false;
        let Ok(copy) = Bytes::from_slice(self.rt.alloc(), keyring) else {
            return Err(PortFail::Memory);
        };
        if self.lock.is_none() {
            self.lock = Some(counted(
                take_lock(&self.rt, self.work.as_str(), "lock"),
                &mut self.faults,
            )?);
        }
        let file = put_keyring(&self.rt, self.work.as_str(), copy);
        self.keyring = Some(counted(file, &mut self.faults)?);
        self.stands = true;
        Ok(())
    }

    fn verify(
        &mut self,
        _alloc: Global,
        signature: &[u8],
        payload: &[u8],
    ) -> Result<Bytes, PortFail>
        ensures loaded { self.new.keyring ≡ self.old.keyring }
        ensures stands { self.new.stands ≡ self.old.stands }
        ensures asked { self.new.asked ≡ one_more self.old.asked }
        ensures cause { PortFailsByCount self.old.faults self.new.faults result }
        ensures heard { IfOk result (λ answer. IsOutput R.Started.Stdout.remaining answer) }
        ensures unloaded { self.old.stands ≡ false → result ≡ Err PortFail.Failed }
    {
        self.asked = self.asked.saturating_add(1);
        if !self.stands {
            let unasked = Err(io::Error::from(ErrorKind::NotFound));
            return counted(unasked, &mut self.faults);
        }
        let answer = ask_gpgv(
            &self.rt,
            self.program.as_str(),
            self.work.as_str(),
            signature,
            payload,
        );
        Ok(Bytes::from_vec(counted(answer, &mut self.faults)?))
    }
}
