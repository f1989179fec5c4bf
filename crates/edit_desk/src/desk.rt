//! Several models that are edited and asked by lines.

ghost use Rattle.std.specs.Prelude.{◌≡◌, ◌≤◌, ◌<◌, ◌+◌, ◌-◌, Some, length, IfErr, IfOk, OnErr, OnOk};
ghost use Rattle.mixed_layering.specs.Layers.{AreLayersOf};
ghost use Rattle.refusals.specs.Faults.{OnBroken};
ghost use Rattle.model_edits.specs.Commands.{edit_rule};
ghost use Rattle.model_edits.specs.Orders.{edit_word, words_behind};
ghost use Rattle.edit_desk.specs.Answers.{HasChangedAt, models_of};
ghost use Rattle.edit_desk.specs.Desks.{HasTicked, IsReply, StepsWithin, TellsOfModel, desk_limit, desk_rule, empty_models};
ghost use Rattle.edit_desk.specs.Desks.{model_at};

use crate::edits::{follow_edit, tell};
use crate::held::Held;
use crate::reply::Reply;
use exchange_graph::Steps;
use mixed_model::{Layered, Mixed};
use model_edits::{Edit, Order, Task, read_order};
use out_of_memory::NoMemory;
use refusals::Fault;
use residue_field::Field;
use row_transform::Tableau;
use std::alloc::Global;
use std::marker::Model;
use std::sync::ledger::Ledger;

/// How many models a desk has at most.
pub const DESK_LIMIT: usize = 16;

/// Models with the numbers from 1 on, each of them empty at first, which are edited and asked by lines. Contracts see them
/// as a list, and count them from 0.
#[derive(Drop)]
pub struct Desk<F: Field, T: Tableau<F>> {
    held: Vec<Held<F, T>>,
}

impl<F: Field, T: Tableau<F>> Model for Desk<F, T> {
    ghost use Rattle.std.specs.Prelude.{◌≤◌, List, length};
    ghost use Rattle.mixed_model.specs.Models.{MixedModel};
    ghost use Rattle.edit_desk.specs.Answers.{models_of};
    ghost use Rattle.edit_desk.specs.Desks.{desk_limit};

    ghost Value = { List MixedModel };

    ghost view = { λ d. models_of d.held.items };

    ghost invariant = { λ d. length d.held.items ≤ desk_limit };
}

impl<F: Field, T: Tableau<F>> Desk<F, T> {
    /// A desk of so many empty models, at least 1 and at most 16.
    #[tactic(auto, using(crate::proofs::DeskLaws::empty_more))]
    pub fn open(alloc: Global, max: usize) -> Result<Desk<F, T>, NoMemory>
        requires some { 1 ≤ max }
        requires few { max ≤ desk_limit }
        ensures { IfOk result (λ desk. desk ≡ empty_models max) }
    {
        let mut held = Vec::with_capacity(alloc, max)?;
        for _ in 0..max {
            held.push(Held::open(alloc, Mixed::new(alloc)?)?)?;
        }
        Ok(Desk { held })
    }

    /// The model of number `k`, from 1 on.
    pub fn model(&self, k: usize) -> &Mixed<F>
        requires some { 1 ≤ k }
        requires within { k ≤ length self.now }
        ensures { result.now ≡ model_at self.now (k - 1) }
    {
        self.held[k - 1].model()
    }

    /// The layered matrix of the model of number `k`, from 1 on.
    pub fn layered(&self, k: usize) -> &Layered<F>
        requires some { 1 ≤ k }
        requires within { k ≤ length self.now }
        ensures { AreLayersOf (model_at self.now (k - 1)) result.now }
    {
        let held = &self.held[k - 1];
        held.is_held();
        held.layered()
    }

    /// Does what a line says, and answers it: it edits one model, tells of one, or changes nothing. `model_edits::read_order` has
    /// the commands, and with `make_edit` their refusals. An edit takes at most seven searches, and fourteen steps for each
    /// column of the model's layered matrix, before it or after it, whichever has more; anything else takes none. Where memory
    /// runs out all models are as they were.
    pub fn command<L: Ledger, M: Ledger>(
        &mut self,
        line: &[u8],
        searches: &mut Steps<L>,
        steps: &mut Steps<M>,
    ) -> Result<Reply, NoMemory>
        ensures reply { IfOk result (IsReply F.modulus self.old line.now self.new) }
        ensures kept { OnErr result (self.new ≡ self.old) }
        ensures searches { searches.new ≤ searches.old + 7 }
        ensures ticks { IfOk result
            (HasTicked self.old line.now self.new (searches.new ≡ searches.old) steps.old steps.new) }
    {
        match self.answer(line, searches, steps) {
            Ok(reply) => Ok(reply),
            Err(Fault::Broken(why)) => Ok(Reply::Refused(why)),
            Err(Fault::NoMemory) => Err(NoMemory),
        }
    }

    // The same, where a refusal is a fault.
    fn answer<L: Ledger, M: Ledger>(
        &mut self,
        line: &[u8],
        searches: &mut Steps<L>,
        steps: &mut Steps<M>,
    ) -> Result<Reply, Fault>
        ensures reply { IfOk result (IsReply F.modulus self.old line.now self.new) }
        ensures refused { IfErr result (λ fault. OnBroken fault
            (λ why. desk_rule F.modulus self.old line.now ≡ Some why)) }
        ensures kept { OnErr result (self.new ≡ self.old) }
        ensures searches { searches.new ≤ searches.old + 7 }
        ensures ticks { IfOk result
            (HasTicked self.old line.now self.new (searches.new ≡ searches.old) steps.old steps.new) }
        ensures no_ticks { IfErr result (λ fault. OnBroken fault
            (λ why. (searches.new ≡ searches.old) × (steps.new ≡ steps.old))) }
    {
        let Some(order) = read_order(self.held.len(), line)? else {
            return Ok(Reply::Nothing);
        };
        let Order { model, task } = order;
        match task {
            Task::Ask => Ok(ask_model(&self.held, model)?),
            Task::Change(edit) => change_model(&mut self.held, model, edit, searches, steps),
        }
    }
}

// What is told of model k.
fn ask_model<F: Field, T: Tableau<F>>(held: &[Held<F, T>], k: usize) -> Result<Reply, NoMemory>
    requires { k < length held.now }
    ensures { IfOk result (TellsOfModel F.modulus (model_at (models_of held.now) k)) }
{
    tell(&held[k])
}

// Edits model k.
fn change_model<F: Field, T: Tableau<F>, L: Ledger, M: Ledger>(
    held: &mut [Held<F, T>],
    k: usize,
    edit: Edit<'_>,
    searches: &mut Steps<L>,
    steps: &mut Steps<M>,
) -> Result<Reply, Fault>
    requires { k < length held.old }
    ensures changed { IfOk result (HasChangedAt F.modulus (edit_word edit.entry) (words_behind edit.entry)
        (models_of held.old) k (models_of held.new)) }
    ensures refused { IfErr result (λ fault. OnBroken fault (λ why. edit_rule F.modulus (edit_word edit.entry)
        (model_at (models_of held.old) k) (words_behind edit.entry) ≡ Some why)) }
    ensures kept { OnErr result (models_of held.new ≡ models_of held.old) }
    ensures searches { searches.new ≤ searches.old + 7 }
    ensures steps { OnOk result (StepsWithin (models_of held.old) k (models_of held.new) steps.old steps.new) }
    ensures still { IfErr result (λ fault. OnBroken fault (λ why.
        (searches.new ≡ searches.old) × (steps.new ≡ steps.old))) }
{
    let rank = follow_edit(&mut held[k], edit, searches, steps)?;
    Ok(Reply::Changed { rank })
}
