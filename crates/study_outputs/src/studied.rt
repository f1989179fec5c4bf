//! What a study writes of an input.

ghost use Rattle.std.specs.Prelude.{◌≡◌, ◌≤◌, ℕ, cond, List, length, IfErr, IfOk};
ghost use Rattle.answer_texts.specs.WholeLayers.{AreWholeLayers};
ghost use Rattle.cert_text.specs.declared.kind.Kind.{Kind};
ghost use Rattle.command_line.specs.declared.command.Study.TheVariants as studies;
ghost use Rattle.input_kinds.specs.Kinds.{GivesModel};
ghost use Rattle.input_problems.specs.ProblemTexts.{GivesProblem, IsWhyNoProblemOf};
ghost use Rattle.limits.specs.Limits.{input_limit};
ghost use Rattle.mixed_layering.specs.Layers.{AreLayersOf};
ghost use Rattle.problem_heads.specs.declared.form.Form.TheVariants as forms;
ghost use Rattle.repair_checker.specs.Costs.{AreCosts};
ghost use Rattle.run_ends.specs.declared.status.Status.TheVariants as statuses;
ghost use Rattle.run_ends.specs.Reading.{IsUnread, ReadsWhole, TellsOfSource};
ghost use Rattle.problem_heads.specs.declared.problem.Problem.TheVariants as problems;
ghost use Rattle.study_outputs.specs.Problems.{IsPriced, IsSolvable, IsSolvingOfProblem};
ghost use Rattle.study_outputs.specs.StudyInputs.{IsStudyFault};
ghost use Rattle.study_outputs.specs.StudyOutputs.{IsStudiedFor, drops_some, end_of_studied};

use cert_text::{Items, Kind};
use cheapest_repairs::cheapest_repair;
use command_line::Study;
use input_kinds::read_input;
use input_problems::read_problem;
use limits::INPUT_LIMIT;
use mixed_layering::layer;
use mixed_model::{Layered, Mixed};
use model_studies::{conflicts_of, first_values, solve_with_values};
use out_of_memory::NoMemory;
use port_io::Source;
use problem_heads::{Form, Problem};
use refusals::ReadModel;
use repair_checker::Repair;
use residue_field::Field;
use run_ends::{Status, read_text};
use std::alloc::Global;
use study_answers::{Conflict, Solving, Values};

/// What a study writes of an input.
#[derive(Drop)]
pub enum Studied<F: Field> {
    /// The model that the input gives, its rank, and values for its symbols that reach the rank.
    Values(Mixed<F>, Values<F>),
    /// The model of the problem in the input, the layered matrix of the model, and how the problem is solved.
    Solved(Mixed<F>, Layered<F>, Solving<F>),
    /// The model of the problem in the input, what its equations cost, and a cheapest repair of it.
    Repaired(Mixed<F>, Items<u64>, Repair<F>),
    /// The model that the input gives, and its surplus equations with their conflict sets.
    Conflicts(Mixed<F>, Items<Conflict>),
}

impl<F: Field> Studied<F> {
    /// What the study writes of the input that the source gives, of at most 8,388,608 bytes, or how the run ends without it.
    pub(crate) fn read<S: Source>(
        alloc: Global,
        study: Study,
        kind: Kind,
        source: &mut S,
    ) -> Result<Studied<F>, Status>
        ensures right { IfOk result (λ studied. ReadsWhole input_limit (S.left source.old) (S.left source.new)
            (λ input. IsStudiedFor F.number F.modulus study kind input studied)) }
        ensures unread { IfErr result (λ status. IsUnread input_limit (IsStudyFault F.modulus study kind) status
            (S.left source.old) (S.left source.new)) }
        ensures source { TellsOfSource S.Source input_limit source.old source.new result }
    {
        match study {
            Study::Values => {
                let model = read_input(alloc, kind, source)?;
                Ok(Studied::values(alloc, model)?)
            }
            Study::Solve => {
                let text = read_text(alloc, source, INPUT_LIMIT as u64)?;
                Ok(Studied::solved(alloc, kind, text)?)
            }
            Study::Repair => {
                let text = read_text(alloc, source, INPUT_LIMIT as u64)?;
                Ok(Studied::repaired(alloc, kind, text)?)
            }
            Study::Conflict => {
                let model = read_input(alloc, kind, source)?;
                Ok(Studied::conflicts(alloc, model)?)
            }
        }
    }

    // The values of a model.
    fn values(alloc: Global, model: Mixed<F>) -> Result<Studied<F>, NoMemory>
        ensures { IfOk result (λ studied. (kind : Kind) (input : List ℕ) → GivesModel F.modulus kind input model →
            IsStudiedFor F.number F.modulus studies.Values kind input studied) }
    {
        let told = first_values(alloc, &model)?;
        Ok(Studied::Values(model, told))
    }

    // How the problem in a text of at most 8,388,608 bytes is solved, or why the text is refused.
    fn solved(alloc: Global, kind: Kind, text: Vec<u8>) -> Result<Studied<F>, ReadModel>
        requires { length text.items ≤ input_limit }
        ensures right { IfOk result (IsStudiedFor F.number F.modulus studies.Solve kind text.items) }
        ensures refused { IfErr result (IsWhyNoProblemOf F.modulus kind forms.Solve text.items) }
    {
        let (model, problem) = read_problem::<F>(alloc, kind, Form::Solve, &text)?;
        Ok(Studied::by_layers(alloc, model, &problem)?)
    }

    // How a problem of a model is solved.
    fn by_layers(
        alloc: Global,
        model: Mixed<F>,
        problem: &Problem<F>,
    ) -> Result<Studied<F>, NoMemory>
        requires { IsSolvable model problem.now }
        ensures { IfOk result (λ studied. (kind : Kind) (text : List ℕ) →
            GivesProblem F.number F.modulus kind forms.Solve text model problem.now →
            IsStudiedFor F.number F.modulus studies.Solve kind text studied) }
    {
        let layered = layer(alloc, &model)?;
        is_whole(&layered);
        let solving = solving_of(alloc, &model, &layered, problem)?;
        Ok(Studied::Solved(model, layered, solving))
    }

    // A cheapest repair by the costs in a text of at most 8,388,608 bytes, or why the text is refused.
    fn repaired(alloc: Global, kind: Kind, text: Vec<u8>) -> Result<Studied<F>, ReadModel>
        requires { length text.items ≤ input_limit }
        ensures right { IfOk result (IsStudiedFor F.number F.modulus studies.Repair kind text.items) }
        ensures refused { IfErr result (IsWhyNoProblemOf F.modulus kind forms.Repair text.items) }
    {
        let (model, problem) = read_problem::<F>(alloc, kind, Form::Repair, &text)?;
        Ok(Studied::by_problem(alloc, model, problem)?)
    }

    // A cheapest repair of a model by the costs of a problem.
    fn by_problem(
        alloc: Global,
        model: Mixed<F>,
        problem: Problem<F>,
    ) -> Result<Studied<F>, NoMemory>
        requires { IsPriced model problem }
        ensures { IfOk result (λ studied. (kind : Kind) (text : List ℕ) →
            GivesProblem F.number F.modulus kind forms.Repair text model problem →
            IsStudiedFor F.number F.modulus studies.Repair kind text studied) }
    {
        match problem {
            Problem::Repair { costs } => Studied::by_costs(alloc, model, costs),
            Problem::Solve { .. } => unreachable!(),
        }
    }

    // A cheapest repair of a model by the costs of its equations.
    fn by_costs(alloc: Global, model: Mixed<F>, costs: Vec<u64>) -> Result<Studied<F>, NoMemory>
        requires { AreCosts (length model.equations) costs.items }
        ensures { IfOk result (λ studied. (kind : Kind) (text : List ℕ) →
            GivesProblem F.number F.modulus kind forms.Repair text model (problems.Repair costs) →
            IsStudiedFor F.number F.modulus studies.Repair kind text studied) }
    {
        let repair = cheapest_repair(alloc, &model, &costs)?;
        Ok(Studied::Repaired(model, Items::from_vec(costs), repair))
    }

    // The conflict sets of a model.
    fn conflicts(alloc: Global, model: Mixed<F>) -> Result<Studied<F>, NoMemory>
        ensures { IfOk result (λ studied. (kind : Kind) (input : List ℕ) → GivesModel F.modulus kind input model →
            IsStudiedFor F.number F.modulus studies.Conflict kind input studied) }
    {
        let told = conflicts_of(alloc, &model)?;
        Ok(Studied::Conflicts(model, Items::from_vec(told)))
    }

    /// How a run ends once all is written and flushed.
    pub(crate) fn status(&self) -> Status
        ensures { result ≡ end_of_studied self.now }
    {
        match self {
            Studied::Values(_, _) | Studied::Conflicts(_, _) => Status::Done,
            Studied::Solved(_, _, Solving::Solution(_)) => Status::Done,
            Studied::Solved(_, _, _) => Status::NotRegular,
            Studied::Repaired(model, _, repair) => status_of_repair(model, repair),
        }
    }
}

// How a run ends that writes a repair: what drops nothing is told apart.
fn status_of_repair<F: Field>(model: &Mixed<F>, repair: &Repair<F>) -> Status
    ensures { result ≡ cond (drops_some model.now repair.now) statuses.Done statuses.NotRegular }
{
    if repair.kept.as_slice().len() < model.equations() {
        Status::Done
    } else {
        Status::NotRegular
    }
}

// How a problem with values and right sides is solved.
fn solving_of<F: Field>(
    alloc: Global,
    model: &Mixed<F>,
    layered: &Layered<F>,
    problem: &Problem<F>,
) -> Result<Solving<F>, NoMemory>
    requires layers { AreLayersOf model.now layered.now }
    requires problem { IsSolvable model.now problem.now }
    ensures { IfOk result (IsSolvingOfProblem F.number F.modulus model.now layered.now problem.now) }
{
    match problem {
        Problem::Solve { values, right } => solve_with_values(alloc, model, layered, values, right),
        Problem::Repair { .. } => unreachable!(),
    }
}

// Tells a proof what the type of a layered matrix keeps.
fn is_whole<F: Field>(layered: &Layered<F>)
    ensures { AreWholeLayers layered.now }
{
    layered.are_layers();
    layered.q.is_matrix();
    layered.t.is_pattern();
}
