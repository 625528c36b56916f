//! How many commits each key signed, as lines on standard output.
ghost use Rattle.std.specs.Prelude.{◌≡◌, ◌++◌, OnOk, IfOk};
ghost use Rattle.auth_report.specs.Statistics.{signer_line, statistics_text};

use crate::parts::{push_fingerprint, push_numbered};
use auth_engine::{Signer, Verdict};
use child_ports::Bytes;
use std::alloc::{AllocError, Global};

// Adds the line of a signer.
fn push_signer_line(text: &mut Bytes, signer: Signer) -> Result<(), AllocError>
    ensures { OnOk result (text.new ≡ text.old ++ signer_line signer) }
{
    push_fingerprint(text, signer.key)?;
    push_numbered(text, b" ", signer.commits as u64, b"\n")
}

/// A line for each signer of what was judged: its fingerprint, and how many commits it signed.
pub fn statistics(alloc: Global, verdict: &Verdict) -> Result<Bytes, AllocError>
    ensures { IfOk result (λ text. text ≡ statistics_text verdict.now) }
{
    let mut text = Bytes::new(alloc);
    for signer in verdict.signers.as_slice() {
        push_signer_line(&mut text, *signer)?;
    }
    Ok(text)
}
