//! How the program is used.
ghost use Rattle.std.specs.Prelude.{◌≡◌};
ghost use Rattle.np_program.specs.Usage.{usage_lines};

/// How the program is used: a line per command, each with its line end.
pub fn usage_text() -> &'static str
    ensures { result.now ≡ usage_lines }
{
    "usage: npss normalize --form FORM DATA EXCL
       npss key --form FORM DATA EXCL
       npss key --form FORM --check-under OLDDATA OLDEXCL DATA EXCL
       npss compare --form FORM DATA EXCL
       npss audit OLDDATA OLDEXCL NEWDATA NEWEXCL
       npss replay --form FORM SCHEDULE FILES..
"
}
