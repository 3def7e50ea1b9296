//! Histories written out, each with its graph, that are legal, or are not even lawful. The functions do nothing: their
//! contracts say so.
#![tactic(auto)]

ghost use Rattle.em_histories.specs.Runs.{IsLegalUntilQuiet, IsLegalUntilLimit, IsWrongAt, IsUnfinished, IsUnfaithful};
ghost use Rattle.em_histories.specs.worked.OneEvent as one_event;
ghost use Rattle.em_histories.specs.worked.OneEventAtTheLimit as one_event_at_the_limit;
ghost use Rattle.em_histories.specs.worked.OnlyBoot as only_boot;
ghost use Rattle.em_histories.specs.worked.LimitOfThree as limit_of_three;
ghost use Rattle.em_histories.specs.worked.SentTwice as sent_twice;
ghost use Rattle.em_histories.specs.worked.FreedTwice as freed_twice;
ghost use Rattle.em_histories.specs.worked.PoolEmpty as pool_empty;
ghost use Rattle.em_histories.specs.worked.KeepAndClaim as keep_and_claim;
ghost use Rattle.em_histories.specs.worked.EveryRefusalOfBoot as every_refusal_of_boot;
ghost use Rattle.em_histories.specs.worked.TwoPrioritiesInOneAtomicGroup as two_priorities_in_one_atomic_group;
ghost use Rattle.em_histories.specs.worked.EarlyEndOfAtomicProcessing as early_end_of_atomic_processing;
ghost use Rattle.em_histories.specs.worked.UnscheduledOutputAndCells as unscheduled_output_and_cells;
ghost use Rattle.em_histories.specs.worked.ThreeOrderedContextsEndOutOfOrder as three_ordered_contexts_end_out_of_order;
ghost use Rattle.em_histories.specs.worked.EarlyEndOfOrderedProcessing as early_end_of_ordered_processing;
ghost use Rattle.em_histories.specs.worked.OrderedEndedTwice as ordered_ended_twice;
ghost use Rattle.em_histories.specs.worked.QueueGroupChangedWhileAReceiveRuns as queue_group_changed_while_a_receive_runs;
ghost use Rattle.em_histories.specs.worked.ChangesRefused as changes_refused;
ghost use Rattle.em_histories.specs.worked.ObjectStoppedWhileAReceiveRuns as object_stopped_while_a_receive_runs;
ghost use Rattle.em_histories.specs.worked.ObjectStoppedByItsOwnEventAndStartedAgain as object_stopped_by_its_own_event_and_started_again;
ghost use Rattle.em_histories.specs.worked.StartThatFails as start_that_fails;
ghost use Rattle.em_histories.specs.worked.StopWhoseNoteIsLost as stop_whose_note_is_lost;
ghost use Rattle.em_histories.specs.worked.GroupCountsAndNotifies as group_counts_and_notifies;
ghost use Rattle.em_histories.specs.worked.ApplicationAborted as application_aborted;
ghost use Rattle.em_histories.specs.worked.ErrorBodiesOfBothScopes as error_bodies_of_both_scopes;
ghost use Rattle.em_histories.specs.worked.LocalQueueKeepClaimDequeue as local_queue_keep_claim_dequeue;
ghost use Rattle.em_histories.specs.worked.QueueDisabledAndEnabled as queue_disabled_and_enabled;
ghost use Rattle.em_histories.specs.worked.HandleHeldByAnotherCore as handle_held_by_another_core;
ghost use Rattle.em_histories.specs.worked.BurstOfTwo as burst_of_two;
ghost use Rattle.em_histories.specs.worked.BurstGivenBackForAChange as burst_given_back_for_a_change;
ghost use Rattle.em_histories.specs.wrong.ReleasedInTheWrongOrder as released_in_the_wrong_order;
ghost use Rattle.em_histories.specs.wrong.ReleasedBeforeItsTicketIsTheFirst as released_before_its_ticket_is_the_first;
ghost use Rattle.em_histories.specs.wrong.HeldSendThatNeverEnters as held_send_that_never_enters;
ghost use Rattle.em_histories.specs.wrong.AcknowledgedWhileAReceiveRuns as acknowledged_while_a_receive_runs;
ghost use Rattle.em_histories.specs.wrong.DoneBeforeAllHaveAcknowledged as done_before_all_have_acknowledged;
ghost use Rattle.em_histories.specs.wrong.MaskInForceBeforeAllHaveAcknowledged as mask_in_force_before_all_have_acknowledged;
ghost use Rattle.em_histories.specs.wrong.LocalStopEnteredWhileAReceiveRuns as local_stop_entered_while_a_receive_runs;
ghost use Rattle.em_histories.specs.wrong.StaleHandleFreed as stale_handle_freed;
ghost use Rattle.em_histories.specs.wrong.SpentHandleSent as spent_handle_sent;
ghost use Rattle.em_histories.specs.wrong.HandleGivenAgain as handle_given_again;
ghost use Rattle.em_histories.specs.wrong.LowerPriorityTaken as lower_priority_taken;
ghost use Rattle.em_histories.specs.wrong.AtomicGroupHeldByTwoCores as atomic_group_held_by_two_cores;
ghost use Rattle.em_histories.specs.wrong.TakenFromADisabledQueue as taken_from_a_disabled_queue;
ghost use Rattle.em_histories.specs.wrong.MoreReceivesThanTheLimit as more_receives_than_the_limit;
ghost use Rattle.em_histories.specs.wrong.NotifiedTwice as notified_twice;
ghost use Rattle.em_histories.specs.wrong.AbortedApplicationNotifies as aborted_application_notifies;
ghost use Rattle.em_histories.specs.wrong.ReceivedAgainAfterGivingBack as received_again_after_giving_back;
ghost use Rattle.em_histories.specs.wrong.LargerBurstTaken as larger_burst_taken;
ghost use Rattle.em_histories.specs.wrong.ChangedWhileAChangeIsPending as changed_while_a_change_is_pending;
ghost use Rattle.em_histories.specs.wrong.TakenBeforeTheEarlyEnd as taken_before_the_early_end;
ghost use Rattle.em_histories.specs.wrong.AppliedWhileBusy as applied_while_busy;
ghost use Rattle.em_histories.specs.wrong.NotifiedBeforeTheLastEnd as notified_before_the_last_end;
ghost use Rattle.em_histories.specs.wrong.HandleOfAnotherCoreFreed as handle_of_another_core_freed;
ghost use Rattle.em_histories.specs.wrong.KeptEventNotFound as kept_event_not_found;
ghost use Rattle.em_histories.specs.wrong.LocalEventTakenElsewhere as local_event_taken_elsewhere;
ghost use Rattle.em_histories.specs.wrong.TakenFromAStoppedObject as taken_from_a_stopped_object;
ghost use Rattle.em_histories.specs.wrong.EventTakenTwice as event_taken_twice;
ghost use Rattle.em_histories.specs.wrong.AllocatedFromAnEmptyPool as allocated_from_an_empty_pool;
ghost use Rattle.em_histories.specs.wrong.BootedTwice as booted_twice;
ghost use Rattle.em_histories.specs.wrong.OrderEndedAgain as order_ended_again;
ghost use Rattle.em_histories.specs.wrong.FailedStartTakenForGood as failed_start_taken_for_good;
ghost use Rattle.em_histories.specs.wrong.NoteReceivedByItsStoppedObject as note_received_by_its_stopped_object;
ghost use Rattle.em_histories.specs.wrong.DequeuedTwice as dequeued_twice;
ghost use Rattle.em_histories.specs.wrong.UnknownHandleFreed as unknown_handle_freed;
ghost use Rattle.em_histories.specs.wrong.AnotherValueSaid as another_value_said;
ghost use Rattle.em_histories.specs.wrong.BodyCutShort as body_cut_short;
ghost use Rattle.em_histories.specs.wrong.ErrorBodySkipped as error_body_skipped;
ghost use Rattle.em_histories.specs.wrong.GlobalErrorBodyInPlaceOfTheObjects as global_error_body_in_place_of_the_objects;

/// Each of these histories is legal, and ends as its subject wants: with nothing left to do, or at the limit on
/// receives. Together they have every kind of entry and of context, and every fault but that of too many operations.
pub fn worked_histories()
    ensures one_event { IsLegalUntilQuiet one_event.run }
    ensures one_event_at_the_limit { IsLegalUntilQuiet one_event_at_the_limit.run }
    ensures only_boot { IsLegalUntilQuiet only_boot.run }
    ensures limit_of_three { IsLegalUntilLimit limit_of_three.run }
    ensures sent_twice { IsLegalUntilQuiet sent_twice.run }
    ensures freed_twice { IsLegalUntilQuiet freed_twice.run }
    ensures pool_empty { IsLegalUntilQuiet pool_empty.run }
    ensures keep_and_claim { IsLegalUntilQuiet keep_and_claim.run }
    ensures every_refusal_of_boot { IsLegalUntilQuiet every_refusal_of_boot.run }
    ensures two_priorities_in_one_atomic_group { IsLegalUntilQuiet two_priorities_in_one_atomic_group.run }
    ensures early_end_of_atomic_processing { IsLegalUntilQuiet early_end_of_atomic_processing.run }
    ensures unscheduled_output_and_cells { IsLegalUntilQuiet unscheduled_output_and_cells.run }
    ensures three_ordered_contexts_end_out_of_order { IsLegalUntilQuiet three_ordered_contexts_end_out_of_order.run }
    ensures early_end_of_ordered_processing { IsLegalUntilQuiet early_end_of_ordered_processing.run }
    ensures ordered_ended_twice { IsLegalUntilQuiet ordered_ended_twice.run }
    ensures queue_group_changed_while_a_receive_runs { IsLegalUntilQuiet queue_group_changed_while_a_receive_runs.run }
    ensures changes_refused { IsLegalUntilQuiet changes_refused.run }
    ensures object_stopped_while_a_receive_runs { IsLegalUntilQuiet object_stopped_while_a_receive_runs.run }
    ensures object_stopped_by_its_own_event_and_started_again { IsLegalUntilQuiet object_stopped_by_its_own_event_and_started_again.run }
    ensures start_that_fails { IsLegalUntilQuiet start_that_fails.run }
    ensures stop_whose_note_is_lost { IsLegalUntilQuiet stop_whose_note_is_lost.run }
    ensures group_counts_and_notifies { IsLegalUntilQuiet group_counts_and_notifies.run }
    ensures application_aborted { IsLegalUntilQuiet application_aborted.run }
    ensures error_bodies_of_both_scopes { IsLegalUntilQuiet error_bodies_of_both_scopes.run }
    ensures local_queue_keep_claim_dequeue { IsLegalUntilQuiet local_queue_keep_claim_dequeue.run }
    ensures queue_disabled_and_enabled { IsLegalUntilQuiet queue_disabled_and_enabled.run }
    ensures handle_held_by_another_core { IsLegalUntilQuiet handle_held_by_another_core.run }
    ensures burst_of_two { IsLegalUntilQuiet burst_of_two.run }
    ensures burst_given_back_for_a_change { IsLegalUntilQuiet burst_given_back_for_a_change.run }
{}

/// Each of these histories is wrong at one place, under the graph and the limits of a history above: the entries
/// before that place were allowed, and the one there is not. So none of them is lawful.
pub fn wrong_histories()
    ensures released_in_the_wrong_order { IsWrongAt 32 released_in_the_wrong_order.run }
    ensures released_before_its_ticket_is_the_first { IsWrongAt 27 released_before_its_ticket_is_the_first.run }
    ensures held_send_that_never_enters { IsUnfinished held_send_that_never_enters.run }
    ensures acknowledged_while_a_receive_runs { IsWrongAt 14 acknowledged_while_a_receive_runs.run }
    ensures done_before_all_have_acknowledged { IsWrongAt 15 done_before_all_have_acknowledged.run }
    ensures mask_in_force_before_all_have_acknowledged { IsWrongAt 14 mask_in_force_before_all_have_acknowledged.run }
    ensures local_stop_entered_while_a_receive_runs { IsWrongAt 14 local_stop_entered_while_a_receive_runs.run }
    ensures stale_handle_freed { IsWrongAt 4 stale_handle_freed.run }
    ensures spent_handle_sent { IsWrongAt 3 spent_handle_sent.run }
    ensures handle_given_again { IsWrongAt 3 handle_given_again.run }
    ensures lower_priority_taken { IsWrongAt 6 lower_priority_taken.run }
    ensures atomic_group_held_by_two_cores { IsWrongAt 8 atomic_group_held_by_two_cores.run }
    ensures taken_from_a_disabled_queue { IsWrongAt 5 taken_from_a_disabled_queue.run }
    ensures more_receives_than_the_limit { IsWrongAt 16 more_receives_than_the_limit.run }
    ensures notified_twice { IsWrongAt 21 notified_twice.run }
    ensures aborted_application_notifies { IsWrongAt 15 aborted_application_notifies.run }
    ensures received_again_after_giving_back { IsWrongAt 29 received_again_after_giving_back.run }
    ensures larger_burst_taken { IsWrongAt 8 larger_burst_taken.run }
    ensures changed_while_a_change_is_pending { IsWrongAt 2 changed_while_a_change_is_pending.run }
    ensures taken_before_the_early_end { IsWrongAt 8 taken_before_the_early_end.run }
    ensures applied_while_busy { IsWrongAt 14 applied_while_busy.run }
    ensures notified_before_the_last_end { IsWrongAt 14 notified_before_the_last_end.run }
    ensures handle_of_another_core_freed { IsWrongAt 11 handle_of_another_core_freed.run }
    ensures kept_event_not_found { IsWrongAt 7 kept_event_not_found.run }
    ensures local_event_taken_elsewhere { IsWrongAt 4 local_event_taken_elsewhere.run }
    ensures taken_from_a_stopped_object { IsWrongAt 19 taken_from_a_stopped_object.run }
    ensures event_taken_twice { IsWrongAt 9 event_taken_twice.run }
    ensures allocated_from_an_empty_pool { IsWrongAt 2 allocated_from_an_empty_pool.run }
    ensures booted_twice { IsWrongAt 2 booted_twice.run }
    ensures order_ended_again { IsWrongAt 9 order_ended_again.run }
    ensures failed_start_taken_for_good { IsWrongAt 7 failed_start_taken_for_good.run }
    ensures note_received_by_its_stopped_object { IsWrongAt 11 note_received_by_its_stopped_object.run }
    ensures dequeued_twice { IsWrongAt 4 dequeued_twice.run }
    ensures unknown_handle_freed { IsWrongAt 8 unknown_handle_freed.run }
{}

/// These are lawful, but in each a context does not follow its body, so they are not legal.
pub fn unfaithful_histories()
    ensures another_value_said { IsUnfaithful another_value_said.run }
    ensures body_cut_short { IsUnfaithful body_cut_short.run }
    ensures error_body_skipped { IsUnfaithful error_body_skipped.run }
    ensures global_error_body_in_place_of_the_objects { IsUnfaithful global_error_body_in_place_of_the_objects.run }
{}
