//! Calls that are made again where memory was refused to them. Here there is plenty of memory; `tests/program/refusals.py`
//! runs each test `a_refused_CALL_succeeds_after_all` once for each of its allocations, with that one refused, and
//! counts those after which the call of the test's name was made again.

/// What the call answers, and where that is that memory ran out, what it answers when it is made again.
pub fn again<V: Drop, E: PartialEq + Drop, F: Fn() -> Result<V, E>>(
    memory: &E,
    call: &F,
) -> Result<V, E>
    requires { F.IsAlwaysCallable call.now }
    ensures { F.post call.now result }
{
    again_where(true, memory, call)
}

/// What the call answers; only where `asked` it is made again after memory ran out.
pub fn again_where<V: Drop, E: PartialEq + Drop, F: Fn() -> Result<V, E>>(
    asked: bool,
    memory: &E,
    call: &F,
) -> Result<V, E>
    requires { F.IsAlwaysCallable call.now }
    ensures { F.post call.now result }
{
    match call() {
        Ok(made) => Ok(made),
        Err(fault) => {
            if asked && fault == *memory {
                call()
            } else {
                Err(fault)
            }
        }
    }
}
