//! How the program is used, and its version.
ghost use Rattle.std.specs.Prelude.{◌≡◌};
ghost use Rattle.np_lines_job.specs.LineWords.{lines_usage, lines_version};

/// How `npss_lines` is used: two lines with their ends.
pub fn lines_usage_text() -> &'static str
    ensures { result.now ≡ lines_usage }
{
    "usage: npss_lines [--null] [--strict] [--progress] --form FORM DATA EXCL
       npss_lines [--null] [--strict] [--progress] --form FORM --caseless DATA EXCL FOLD\n"
}

/// The program and its version: a line with its end.
pub fn lines_version_text() -> &'static str
    ensures { result.now ≡ lines_version }
{
    "npss_lines 0.2.0\n"
}
