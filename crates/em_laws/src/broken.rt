//! For each law a short history that breaks it and no other law by its only wrong entry, and that is not lawful.
ghost use Rattle.em_laws.specs.Broken.{BreaksOnly, StopLaw, GroupLaw, AtomicLaw, EntersOnceLaw, EntersInTurnLaw, StartsInOrderLaw, StartsNextLaw, NotifiesOnceLaw, two_cores, ten_receives, stop_begun, early_ack, stop_completes, group_changed, excluded_take, excluded_starts, one_inside, second_take, second_starts, aborted, second_notification, no_more, given_back, second_start, one_sent, second_send, boot_ends, only_boot, one_received};

/// A core that acknowledges a stop while a receive of the object is open on it.
pub fn early_acknowledgement()
    ensures { BreaksOnly two_cores ten_receives StopLaw stop_completes early_ack stop_begun }
{}

/// A take by a core that a completed change of the queue group excluded.
pub fn take_outside_group()
    ensures { BreaksOnly two_cores ten_receives GroupLaw excluded_starts excluded_take group_changed }
{}

/// Two cores in one atomic group.
pub fn two_cores_inside()
    ensures { BreaksOnly two_cores ten_receives AtomicLaw second_starts second_take one_inside }
{}

/// A second notification of an application, after an abort of the next one.
pub fn second_notify()
    ensures { BreaksOnly two_cores ten_receives NotifiesOnceLaw no_more second_notification aborted }
{}

/// An event that was given back, is taken and started again, and then started once more.
pub fn start_given_back()
    ensures { BreaksOnly two_cores ten_receives StartsInOrderLaw no_more second_start given_back }
{}

/// A handle that is sent twice.
pub fn sent_twice()
    ensures { BreaksOnly two_cores ten_receives EntersOnceLaw boot_ends second_send one_sent }
{}

/// A send of a handle that was never minted.
pub fn sent_unminted()
    ensures { BreaksOnly two_cores ten_receives EntersInTurnLaw boot_ends second_send only_boot }
{}

/// A start that leaves out a generation of its event.
pub fn start_leaves_one_out()
    ensures { BreaksOnly two_cores ten_receives StartsNextLaw no_more second_start one_received }
{}
