ghost use Rattle.sealing.specs.Laws.{Undone};

use engine::Engine;

// Opening undoes sealing and sealing undoes opening, for every engine that keeps the trait's laws.
pub fn undone<E: Engine>()
    ensures { Undone E.Engine.takes E.Engine.cipher E.Engine.inverse }
{}
