//! What an operation does to its target, at its begin and once it is done.
ghost use Rattle.std.specs.Prelude.{◌≡◌, ◌∷◌, List};
ghost use Rattle.em_log.specs.Operations.{Operation};
ghost use Rattle.em_log.specs.declared.declarations.Declarations.{Declarations as TheDeclarations};
ghost use Rattle.em_acks.specs.Steps.{AckStep};
ghost use Rattle.em_groups.specs.Steps.{GroupStep, Began, Finished};
ghost use Rattle.em_objects.specs.Steps.{ObjectStep, Moved};
ghost use Rattle.em_operation_parts.specs.GroupSteps as changes;
ghost use Rattle.em_operation_parts.specs.ObjectSteps as moves;
ghost use Rattle.em_operations.specs.Operations.{StepsStand, CanMove, CanChange, CanSettle, CanBeginTarget, CanEndTarget};

use crate::operations::Operations;
use em_log::{Begun, EoId, EoState, GroupId};

impl Operations {
    /// The object comes to this state.
    fn move_to(&mut self, eo: EoId, to: EoState)
        requires { CanMove self.old eo.0 to }
        ensures { (k : TheDeclarations) (o : List ObjectStep) (g : List GroupStep) (a : List AckStep) (b : List Operation) → StepsStand k self.old o g a b → StepsStand k self.new (Moved eo.0 to ∷ o) g a b }
    {
        self.objects.set(eo, to);
        self.queues.move_to(eo, to);
    }

    /// Begins to give the group this mask.
    fn change(&mut self, group: GroupId, mask: u64)
        requires { CanChange self.old group.0 mask }
        ensures { (k : TheDeclarations) (o : List ObjectStep) (g : List GroupStep) (a : List AckStep) (b : List Operation) → StepsStand k self.old o g a b → StepsStand k self.new o (Began group.0 mask ∷ g) a b }
    {
        let _begun = self.groups.begin(group, mask);
        let shared = self.groups.effective(group);
        self.queues.mask(group, shared);
    }

    /// The mask that the group is being given holds.
    fn settle(&mut self, group: GroupId)
        requires { CanSettle self.old group.0 }
        ensures { (k : TheDeclarations) (o : List ObjectStep) (g : List GroupStep) (a : List AckStep) (b : List Operation) → StepsStand k self.old o g a b → StepsStand k self.new o (Finished group.0 ∷ g) a b }
    {
        self.groups.finish(group);
        let effective = self.groups.effective(group);
        self.queues.mask(group, effective);
    }

    /// What an operation does to its target when it begins.
    pub(crate) fn begin_target(&mut self, job: Begun)
        requires { CanBeginTarget self.old job }
        ensures { (k : TheDeclarations) (o : List ObjectStep) (g : List GroupStep) (a : List AckStep) (b : List Operation) → StepsStand k self.old o g a b → StepsStand k self.new (moves.begun_steps job o) (changes.begun_steps job g) a b }
    {
        match job {
            Begun::Start(eo) => self.move_to(eo, EoState::Starting),
            Begun::Stop(eo) => self.move_to(eo, EoState::Stopping),
            Begun::Modify(group, mask) => self.change(group, mask),
        }
    }

    /// What an operation does to its target when it is done: a start that failed leaves it created.
    pub(crate) fn end_target(&mut self, job: Begun, ok: bool)
        requires { CanEndTarget self.old job }
        ensures { (k : TheDeclarations) (o : List ObjectStep) (g : List GroupStep) (a : List AckStep) (b : List Operation) → StepsStand k self.old o g a b → StepsStand k self.new (moves.done_steps job ok o) (changes.done_steps job g) a b }
    {
        match job {
            Begun::Start(eo) => {
                if ok {
                    self.move_to(eo, EoState::Running);
                } else {
                    self.move_to(eo, EoState::Created);
                }
            }
            Begun::Stop(eo) => self.move_to(eo, EoState::Created),
            Begun::Modify(group, _) => self.settle(group),
        }
    }
}
