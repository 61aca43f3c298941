// What a job reads of a request, or the refusal.
ghost use Rattle.std.specs.Prelude.{◌≡◌, ◌≤◌, true, false, length, replicate};
ghost use Rattle.float.specs.Ops.{f0};
ghost use Rattle.eos.specs.Cubic.{max_density};
ghost use Rattle.block.specs.Blend.{empty_blend};
ghost use Rattle.block.specs.Pairs.{pairs_fit};
ghost use Rattle.block.specs.Numbers.{reads_fractions, numbers_of};
ghost use Rattle.block.specs.Checks.{positive as positive_of};
ghost use Rattle.reader.specs.View.{initial_of, branch_of, given_of, task_of, refused as refused_of, check, of_data, last_checks, checked as checked_of, view as view_of};
ghost use Rattle.reader.specs.Reading.{Reads};
ghost use Rattle.reader.specs.declared.types.Refusal.TheVariants.{Choice};
ghost use Rattle.std.specs.Prelude.{Ok};

use crate::types::{Job, Refusal, Task};
use block::{
    Conditions, choice_fits, conditions, conditions_fit, empty, is_plus_zero, keep_component_alone,
    offset, pairs_fit, positive, read_blend_components, read_blend_fractions,
    read_blend_interactions, reads_fractions, sum_fits,
};
use eos::Blend;
use solver::DensityInitialization;
use solver_density::Branch;

#[tactic(auto, unfolding(crate::specs::View::initial_of))]
fn initial(choice: u64, start: f64) -> DensityInitialization
    ensures { result ≡ initial_of choice start }
{
    match choice {
        0 => DensityInitialization::Vapor,
        1 => DensityInitialization::Liquid,
        _ => DensityInitialization::InitialDensity(start),
    }
}

#[tactic(auto, unfolding(crate::specs::View::branch_of))]
fn branch(choice: u64) -> Branch
    ensures { result ≡ branch_of choice }
{
    match choice {
        0 => Branch::Vapor,
        _ => Branch::Liquid,
    }
}

#[tactic(auto, unfolding(crate::specs::View::given_of))]
fn given(x: f64) -> Option<f64>
    ensures { result ≡ given_of x }
{
    if is_plus_zero(x) { None } else { Some(x) }
}

#[tactic(auto, unfolding(crate::specs::View::task_of))]
fn task(kind: u64, c: Conditions) -> Task
    ensures { result ≡ task_of kind c }
{
    match kind {
        1 => Task::DensityIteration(c.temperature, c.pressure, initial(c.choice, c.start)),
        2 => Task::DensityIterationStable(c.temperature, c.pressure),
        3 => Task::PressureSpinodal(c.temperature, c.start),
        4 => Task::PressureSpinodalBranch(c.temperature, branch(c.choice)),
        6 => Task::Spinodal(c.temperature),
        8 => Task::CriticalPointBinaryT(c.temperature, given(c.start)),
        9 => Task::CriticalPointBinaryP(c.pressure, given(c.temperature), given(c.start)),
        _ => Task::CriticalPoint(given(c.temperature), given(c.start)),
    }
}

// Whether a number is one of the data's refusals.
#[tactic(auto, unfolding(crate::specs::View::of_data))]
pub fn of_data(number: u64) -> bool
    ensures { result ≡ of_data number }
{
    (11..=17).contains(&number)
}

// A task on a blend whose maximum density fits.
fn ready(task: Task, blend: Blend) -> Result<Task, Refusal>
    ensures { result ≡ (check (positive_of (max_density blend)) Choice (record { task = Ok task; blend = blend })).task }
{
    if !positive(eos::compute_max_density(blend)) {
        return Err(Refusal::Choice);
    }
    Ok(task)
}

// The checks after those of the blend's own numbers. Kinds 5 and 6 search the chosen component alone.
fn under_conditions(kind: u64, n: u64, c: Conditions, blend: &mut Blend) -> Result<Task, Refusal>
    requires { (n ≤ 8) × (reads_fractions kind ≡ false → blend.old.k_ij ≡ replicate 64 f0) }
    ensures { Reads (last_checks kind n c blend.old) result blend.new }
{
    if !conditions_fit(kind, c) {
        return Err(Refusal::Conditions);
    }
    if !choice_fits(kind, n, c.choice) {
        return Err(Refusal::Choice);
    }
    if reads_fractions(kind) {
        return ready(task(kind, c), *blend);
    }
    keep_component_alone(c.choice as usize, blend);
    ready(task(kind, c), *blend)
}

fn checked(kind: u64, n: u64, block: &[u8], blend: &mut Blend) -> Result<Task, Refusal>
    requires { (1 ≤ n) × (n ≤ 8) × (length block.now ≡ 640) × (pairs_fit n block.now ≡ true) × (blend.old ≡ empty_blend) }
    ensures { Reads (checked_of kind n (numbers_of kind n block.now)) result blend.new }
{
    let size = n as usize;
    blend.n = size;
    if !read_blend_components(size, block, offset(block, 0), blend) {
        return Err(Refusal::Components);
    }
    if !read_blend_interactions(kind, size, block, offset(block, 1), blend) {
        return Err(Refusal::Interactions);
    }
    if !read_blend_fractions(kind, size, block, offset(block, 2), blend) {
        return Err(Refusal::Fractions);
    }
    if !sum_fits(kind, size, &blend.x) {
        return Err(Refusal::FractionSum);
    }
    let c = conditions(kind, block, offset(block, 3));
    under_conditions(kind, n, c, blend)
}

// Reads a request into its blend, which comes in empty, and returns its task. Of a refused request the blend says nothing.
pub fn read(kind: u64, n: u64, block: &[u8], blend: &mut Blend) -> Result<Task, Refusal>
    requires { blend.old ≡ empty_blend }
    ensures { Reads (view_of kind n block.now) result blend.new }
{
    if !schedule::kind_fits(kind) {
        return Err(Refusal::Kind);
    }
    if !schedule::count_fits(kind, n) {
        return Err(Refusal::Count);
    }
    if block.len() != 640 {
        return Err(Refusal::BlockLength);
    }
    if !pairs_fit(n, block) {
        return Err(Refusal::Pairs);
    }
    checked(kind, n, block, blend)
}

#[tactic(auto, unfolding(crate::specs::View::refused))]
fn refused(refusal: Refusal) -> Job
    ensures { result ≡ refused_of refusal }
{
    let blend = empty();
    Job {
        task: Err(refusal),
        blend,
    }
}

// The job of a request, for any kind, N and block.
pub fn view(kind: u64, n: u64, block: &[u8]) -> Job
    ensures { result ≡ view_of kind n block.now }
{
    let mut blend = empty();
    let task = read(kind, n, block, &mut blend);
    if let Err(refusal) = task {
        return refused(refusal);
    }
    Job { task, blend }
}
