//! How the program is used.
ghost use Rattle.std.specs.Prelude.{◌≡◌};
ghost use Rattle.np_caseless_job.specs.Usage.{caseless_usage, caseless_version};

/// How `npss_caseless` is used: a line per command, each with its line end.
pub fn caseless_usage_text() -> &'static str
    ensures { result.now ≡ caseless_usage }
{
    "usage: npss_caseless key --form FORM DATA EXCL FOLD
       npss_caseless key --form FORM --check-under OLDDATA OLDEXCL OLDFOLD DATA EXCL FOLD
       npss_caseless compare --form FORM DATA EXCL FOLD
       npss_caseless audit OLDDATA OLDEXCL OLDFOLD NEWDATA NEWEXCL NEWFOLD
"
}

/// The program and its version: a line with its end.
pub fn caseless_version_text() -> &'static str
    ensures { result.now ≡ caseless_version }
{
    "npss_caseless 0.2.0\n"
}
