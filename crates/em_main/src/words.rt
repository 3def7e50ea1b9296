//! The words of a run with a thread for each core.
ghost use Rattle.std.specs.Prelude.{◌≡◌, Some, IfSome, map, string_bytes, [], ◌∷◌};
ghost use Rattle.em_log.specs.declared.ids.Limits.{Limits as TheLimits};
ghost use Rattle.em_main.specs.Words.{IsRun};

use em_log::Limits;
use em_tool::number;

/// The limits of the run that these three words are.
fn limits_of(name: &str, limit: &str, burst: &str) -> Option<Limits>
    ensures is_run { IfSome result (IsRun (name.now ∷ limit.now ∷ burst.now ∷ [])) }
    ensures known { (l : TheLimits) → IsRun (name.now ∷ limit.now ∷ burst.now ∷ []) l → result ≡ Some l }
{
    if name != "run" {
        return None;
    }
    if burst != "1" {
        return None;
    }
    let Some(receives) = number(limit) else {
        return None;
    };
    if receives < 1 {
        return None;
    }
    if receives > 10000 {
        return None;
    }
    Some(Limits {
        receives: receives as u16,
        burst: 1,
    })
}

/// The limits of the run that the words are.
pub fn run_of(words: &[String]) -> Option<Limits>
    ensures is_run { IfSome result (IsRun (map string_bytes words.now)) }
    ensures known { (l : TheLimits) → IsRun (map string_bytes words.now) l → result ≡ Some l }
{
    match words {
        [name, limit, burst] => limits_of(name.as_str(), limit.as_str(), burst.as_str()),
        _ => None,
    }
}
