//! The help text.

/// What `--help` prints.
pub const HELP: &[u8] = b"\
Usage: guix-auth authenticate COMMIT SIGNER [OPTION]...
       guix-auth channels FILE --clones=DIR [OPTION]...
       guix-auth selftest N
Options of authenticate:
  -r, --repository=DIR
  -k, --keyring=REF
  --end=NAME
  --stats
  --cache-key=KEY
  --historical-authorizations=FILE
Options of channels:
  --clones=DIR
  --allow-downgrades
  --disable-authentication
";
