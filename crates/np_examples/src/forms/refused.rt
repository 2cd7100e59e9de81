//! Calls that were refused for want of memory, and succeed after all.
use np_code_points::text::string_of;
use np_code_points::watched::Watched;
use np_code_points::{Form, Memory};
use np_examples_shared::devices::Room;
use np_examples_shared::{Example, Made, V1, holds_over_each, want};
use np_forms::{
    NpssFault, RunFault, Stream, equivalent, form, into_npss, is_form, lend_npss, npss, run,
};
use np_versions::NormTable;
use std::alloc::Global;
use std::borrow::CowStr;
use std::test::Fail;

const TEXT: &str = "\u{61}\u{302}\u{323}";

/// The calls that can want memory.
#[derive(Clone, Copy, PartialEq, Eq)]
enum Call {
    Form,
    Npss,
    LendNpss,
    IntoNpss,
    IsForm,
    Equivalent,
    Feed,
    Finish,
    Run,
}

const CHARS: &[char] = &['\u{61}', '\u{302}', '\u{323}'];

const KEY: &str = "\u{1EAD}";

fn form_again<T: NormTable>(alloc: Global, table: &T, wanted: Form) -> Result<String, Memory> {
    match form(alloc, table, wanted, TEXT) {
        Err(Memory) => form(alloc, table, wanted, TEXT),
        made => made,
    }
}

fn forms<T: NormTable>(alloc: Global, table: &T, wanted: Form, normal: &str) -> Result<(), Fail> {
    let same = form_again(alloc, table, wanted)?.as_str() == normal;
    want(same, "the form")
}

fn npss_again<T: NormTable>(alloc: Global, table: &T) -> Result<String, NpssFault> {
    match npss(alloc, table, Form::Nfc, TEXT) {
        Err(NpssFault::Memory) => npss(alloc, table, Form::Nfc, TEXT),
        made => made,
    }
}

/// What is told of a text that has a code point which is not assigned.
fn fault_of_lacking<T: NormTable>(alloc: Global, table: &T) -> Option<NpssFault> {
    npss(alloc, table, Form::Nfc, "\u{41}\u{16D67}").err()
}

fn stabilized<T: NormTable>(alloc: Global, table: &T) -> Result<(), Fail> {
    let fault = NpssFault::Unassigned {
        at: 1,
        code: '\u{16D67}',
    };
    want(
        fault_of_lacking(alloc, table) == Some(fault),
        "what is told at once",
    )?;
    let same = npss_again(alloc, table)?.as_str() == KEY;
    want(same, "the key")
}

fn lend_again<'t, T: NormTable>(
    alloc: Global,
    table: &T,
    text: &'t str,
) -> Result<CowStr<'t>, NpssFault> {
    match lend_npss(alloc, table, Form::Nfc, text) {
        Err(NpssFault::Memory) => lend_npss(alloc, table, Form::Nfc, text),
        made => made,
    }
}

/// A text that changes, lent.
fn lent<T: NormTable>(alloc: Global, table: &T) -> Result<(), Fail> {
    let same = lend_again(alloc, table, TEXT)?.as_str() == KEY;
    want(same, "the key")
}

/// The key of a text that is given up.
fn give_up<T: NormTable>(alloc: Global, table: &T, chars: &[char]) -> Result<String, NpssFault> {
    match string_of(alloc, chars) {
        Ok(given) => into_npss(alloc, table, Form::Nfc, given),
        Err(Memory) => Err(NpssFault::Memory),
    }
}

/// The text is handed over again where memory for its form was refused.
fn give_up_again<T: NormTable>(
    alloc: Global,
    table: &T,
    chars: &[char],
) -> Result<String, NpssFault> {
    match give_up(alloc, table, chars) {
        Err(NpssFault::Memory) => give_up(alloc, table, chars),
        made => made,
    }
}

/// A text that changes, or one that doesn't, given up.
fn given_up<T: NormTable>(alloc: Global, table: &T, chars: &[char]) -> Result<(), Fail> {
    let same = give_up_again(alloc, table, chars)?.as_str() == KEY;
    want(same, "the key")
}

fn is_form_again<T: NormTable>(
    alloc: Global,
    table: &T,
    wanted: Form,
    text: &str,
) -> Result<bool, Memory> {
    match is_form(alloc, table, wanted, text) {
        Err(Memory) => is_form(alloc, table, wanted, text),
        answer => answer,
    }
}

fn in_form<T: NormTable>(alloc: Global, table: &T) -> Result<(), Fail> {
    want(is_form_again(alloc, table, Form::Nfc, KEY)?, "in the form")?;
    want(!is_form_again(alloc, table, Form::Nfd, KEY)?, "in another")
}

fn equivalent_again<T: NormTable>(alloc: Global, table: &T, compat: bool) -> Result<bool, Memory> {
    match equivalent(alloc, table, compat, "\u{FB01}", "fi") {
        Err(Memory) => equivalent(alloc, table, compat, "\u{FB01}", "fi"),
        answer => answer,
    }
}

fn alike<T: NormTable>(alloc: Global, table: &T) -> Result<(), Fail> {
    want(!equivalent_again(alloc, table, false)?, "canonical")?;
    want(equivalent_again(alloc, table, true)?, "compatible")
}

/// Feeds a code point; where there is none, ends the text.
fn step<T: NormTable>(stream: &mut Stream<'_, T>, code: Option<char>) -> Result<(), Memory> {
    match code {
        Some(code) => stream.feed(code),
        None => stream.finish(),
    }
}

/// Whether a refused step changed nothing.
fn is_as_before<T: NormTable>(stream: &Stream<'_, T>, ready: usize, pending: usize) -> bool {
    stream.ready().len() == ready && stream.pending_len() == pending
}

/// Takes a step, a second time where memory was refused and that is asked for.
fn steps<T: NormTable>(
    stream: &mut Stream<'_, T>,
    code: Option<char>,
    again: bool,
) -> Result<(), Fail> {
    let ready = stream.ready().len();
    let pending = stream.pending_len();
    if let Err(refused) = step(stream, code) {
        want(
            is_as_before(stream, ready, pending),
            "a refused step changes nothing",
        )?;
        if !again {
            return Err(refused.into());
        }
        step(stream, code)?;
    }
    Ok(())
}

/// The code points of a text, fed to the stream one by one.
const FED: &[char] = &[
    '\u{61}', '\u{302}', '\u{323}', '\u{41}', '\u{327}', '\u{30A}', '\u{FB01}',
];

fn feeds<T: NormTable>(stream: &mut Stream<'_, T>, call: Call) -> Result<(), Fail> {
    for code in FED {
        steps(stream, Some(*code), call == Call::Feed)?;
    }
    steps(stream, None, call == Call::Finish)
}

/// Fails unless the stream gives the text's form.
fn gives<T: NormTable>(
    alloc: Global,
    stream: &mut Stream<'_, T>,
    call: Call,
    normal: &str,
) -> Result<(), Fail> {
    feeds(stream, call)?;
    want(string_of(alloc, stream.ready())?.as_str() == normal, normal)
}

fn streams<T: NormTable>(
    alloc: Global,
    table: &T,
    wanted: Form,
    call: Call,
    normal: &str,
) -> Result<(), Fail> {
    let mut stream = Stream::new(alloc, table, wanted);
    gives(alloc, &mut stream, call, normal)
}

fn both_streams<T: NormTable>(alloc: Global, table: &T, call: Call) -> Result<(), Fail> {
    let composed = "\u{1EAD}\u{C5}\u{327}\u{FB01}";
    streams(alloc, table, Form::Nfc, call, composed)?;
    let plain = "\u{61}\u{323}\u{302}\u{41}\u{327}\u{30A}\u{66}\u{69}";
    streams(alloc, table, Form::Nfkd, call, plain)
}

/// Whether memory was refused to a run, which wrote a front of the form then; else it has written the form.
fn was_refused(answer: Result<u64, RunFault>, bytes: &[u8]) -> Result<bool, Fail> {
    if answer == Err(RunFault::Memory) {
        let front = b"\xc3\xa2".starts_with(bytes);
        want(front, "a refused run writes a front of the form")?;
        return Ok(true);
    }
    want(answer? == 2 && bytes == b"\xc3\xa2".as_slice(), "the run")?;
    Ok(false)
}

/// A run over 0061 0302: whether memory was refused to it.
fn ran<T: NormTable>(alloc: Global, table: &T) -> Result<bool, Fail> {
    let mut target = Watched::new(Room::new(alloc, 8, 8)?);
    let mut source = Watched::new(b"a\xcc\x82".as_slice());
    let answer = run(alloc, table, Form::Nfc, &mut source, &mut target);
    was_refused(answer, target.into_inner().bytes())
}

fn runs<T: NormTable>(alloc: Global, table: &T) -> Result<(), Fail> {
    let over = !ran(alloc, table)? || !ran(alloc, table)?;
    want(over, "Memory, a second time")
}

impl Example for Call {
    fn holds<T: Made>(&self, alloc: Global, table: &T) -> Result<(), Fail> {
        match self {
            Call::Form => {
                forms(alloc, table, Form::Nfd, "\u{61}\u{323}\u{302}")?;
                forms(alloc, table, Form::Nfc, "\u{1EAD}")
            }
            Call::Npss => stabilized(alloc, table),
            Call::LendNpss => lent(alloc, table),
            Call::IntoNpss => {
                given_up(alloc, table, CHARS)?;
                given_up(alloc, table, &['\u{1EAD}'])
            }
            Call::IsForm => in_form(alloc, table),
            Call::Equivalent => alike(alloc, table),
            Call::Feed | Call::Finish => both_streams(alloc, table, *self),
            Call::Run => runs(alloc, table),
        }
    }
}

#[test]
fn a_refused_form_succeeds_after_all(rt: HostRuntime) -> Result<(), Fail> {
    holds_over_each(rt.alloc(), V1, &Call::Form)
}

#[test]
fn a_refused_npss_succeeds_after_all(rt: HostRuntime) -> Result<(), Fail> {
    holds_over_each(rt.alloc(), V1, &Call::Npss)
}

#[test]
fn a_refused_lend_npss_succeeds_after_all(rt: HostRuntime) -> Result<(), Fail> {
    holds_over_each(rt.alloc(), V1, &Call::LendNpss)
}

#[test]
fn a_refused_into_npss_succeeds_after_all(rt: HostRuntime) -> Result<(), Fail> {
    holds_over_each(rt.alloc(), V1, &Call::IntoNpss)
}

#[test]
fn a_refused_is_form_succeeds_after_all(rt: HostRuntime) -> Result<(), Fail> {
    holds_over_each(rt.alloc(), V1, &Call::IsForm)
}

#[test]
fn a_refused_equivalent_succeeds_after_all(rt: HostRuntime) -> Result<(), Fail> {
    holds_over_each(rt.alloc(), V1, &Call::Equivalent)
}

#[test]
fn a_refused_feed_succeeds_after_all(rt: HostRuntime) -> Result<(), Fail> {
    holds_over_each(rt.alloc(), V1, &Call::Feed)
}

#[test]
fn a_refused_finish_succeeds_after_all(rt: HostRuntime) -> Result<(), Fail> {
    holds_over_each(rt.alloc(), V1, &Call::Finish)
}

#[test]
fn a_refused_run_succeeds_after_all(rt: HostRuntime) -> Result<(), Fail> {
    holds_over_each(rt.alloc(), V1, &Call::Run)
}
