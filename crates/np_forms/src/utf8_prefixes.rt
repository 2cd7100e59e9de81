//! How bytes begin that came so far, as far as they are a text.
ghost use Rattle.std.specs.Prelude.{◌≡◌, ◌+◌, ◌≤◌, false, true, length};
ghost use Rattle.np_forms.specs.Utf8Prefixes.{MayBegin, MayNotBegin};

/// How bytes begin.
#[derive(Clone, Copy)]
pub struct Utf8Prefix {
    /// How many bytes the longest prefix has that is UTF-8.
    pub text: usize,
    /// Whether more bytes may make a character of what follows it, or nothing follows it.
    pub may_begin: bool,
}

/// How these bytes begin (The Unicode Standard, table 3-7).
pub fn utf8_prefix_of(bytes: &[u8]) -> Utf8Prefix
    ensures begins { result.may_begin ≡ true → MayBegin bytes.now result.text }
    ensures ends { result.may_begin ≡ false → MayNotBegin bytes.now result.text }
    ensures few { result.may_begin ≡ true → length bytes.now ≤ result.text + 3 }
{
    match simdutf8::compat::from_utf8(bytes) {
        Ok(text) => Utf8Prefix {
            text: text.len(),
            may_begin: true,
        },
        Err(fault) => Utf8Prefix {
            text: fault.valid_up_to(),
            may_begin: fault.error_len().is_none(),
        },
    }
}
