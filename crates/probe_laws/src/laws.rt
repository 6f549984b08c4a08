//! The laws of a node's own probes.

ghost use Rattle.probe_laws.specs.Just.{OutcomesAreJust};
ghost use Rattle.probe_laws.specs.There.{RowsNameOwn};
ghost use Rattle.probe_laws.specs.Compared.{ProbesAreCompared};
ghost use Rattle.probe_laws.specs.Answers.{AnswersAreNoted, ProbesRunUnanswered, SilenceIsJust};
ghost use Rattle.probe_laws.specs.Courses.{CoursesAreJust};

/// Each outcome that the machine notes of a probe has its reason in the input that made it. A Failed without an
/// answer comes of a tick at which the probe that runs is late, and one with a wrong answer of a Proof with the
/// number and nonce of that probe whose value differs from the chain over the node's own bytes. A Passed comes of
/// a Proof whose value is that chain's, and a Declined of a Declined of that probe. An Asked lists what may be
/// asked for, where no probe of its peer runs.
pub fn outcomes_are_just()
    ensures { OutcomesAreJust }
{}

/// Each chunk that a peer has, or lost, is still one of the node's own, so that the node can compare what is proved
/// of it.
pub fn rows_name_own_chunks()
    ensures { RowsNameOwn }
{}

/// While a probe runs, over any course since a node was opened with a valid history, the node has the bytes of all
/// that it lists: there is a chain to compare an answer with. The course is one whose history is lawful at its end,
/// as each is that a node makes; nothing is asked of its inputs.
pub fn probes_are_compared()
    ensures { ProbesAreCompared }
{}

/// Behind such a course a Proof with the number and the nonce of the probe that runs makes a Passed or a Failed of
/// it, by whether its value is that of the chain over the node's own bytes; then no probe of that peer runs.
pub fn answers_are_noted()
    ensures { AnswersAreNoted }
{}

/// A probe that runs behind such a course began at a step of it, with the change that has its number and by the
/// peer's clock then, and no Proof of it came since. (That no probe has two outcomes is the law `outcomes_law` of
/// `model_laws`, of every lawful history.)
pub fn probes_run_unanswered()
    ensures { ProbesRunUnanswered }
{}

/// A probe that fails for want of an answer, at an input behind such a course, began so, had no Proof since, and is
/// late: its peer had its time.
pub fn silence_is_just()
    ensures { SilenceIsJust }
{}

/// So each change that such a course makes of a probe has its reason in the input that made it, and silence is booked
/// for no peer that answered.
pub fn courses_are_just()
    ensures { CoursesAreJust }
{}
