ghost use Rattle.std.specs.Prelude.{All};
ghost use Rattle.planned_cluster.specs.Fitting.{SessionIsThere};

use planned_cluster::see_session;
use session_script::Line;

/// Sessions that the lines name are those that there are, as their types say.
pub(crate) fn see_sessions(lines: &[Line])
    ensures { All (λ line. SessionIsThere line.actor) lines.now }
{
    for line in lines {
        see_session(&line.actor);
    }
}
