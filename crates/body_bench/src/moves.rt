//! A boot body from its beginning to its end.
ghost use Rattle.std.specs.Prelude.{◌≡◌, ◌≤◌, true, None};
ghost use Rattle.em_body.specs.Standings.{unanswered};

use em_body::BodyRun;
use em_log::{Answer, Ask, Context, Fault, Move, Work};

/// Makes a move, and answers its ask: each free is refused. Whether the body goes on.
fn exchange(run: &mut BodyRun<'_>) -> bool
    requires { unanswered run.old.standing ≡ None }
    ensures { result ≡ true → unanswered run.new.standing ≡ None }
{
    match run.next() {
        Move::Silent => true,
        Move::Ask(Ask::Say(_)) => {
            run.answer(&Answer::Done);
            true
        }
        Move::Ask(Ask::Free(word)) => {
            run.answer(&Answer::Refused(Fault::NeverMinted(word)));
            true
        }
        _ => false,
    }
}

/// How many moves the boot body makes before its end.
pub fn boot(run: &mut BodyRun<'_>) -> u32
    ensures { result ≤ 65536 }
{
    run.begin(&Context::Boot);
    for moves in 0..65_536 {
        if !exchange(run) {
            return moves;
        }
    }
    65_536
}
