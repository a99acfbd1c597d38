// What the runner, its copy and a runner that is reset answer and keep, with ample memory. The
// program `cases_queries` compares the answers to many words with those of the search.
ghost use Rattle.std.specs.Prelude.{◌≡◌, ◌+◌, ◌<◌, ◌≤◌, IfOk, OnOk};
ghost use Rattle.query_model.specs.Following.{composes_of};
ghost use Rattle.query_model.specs.Queries.{plain_of};
ghost use Rattle.eval_runner.specs.Following.{position_of};
ghost use Rattle.test_engines.specs.Feeding.{TakesItems};
ghost use Rattle.test_engines.specs.TestedQueries as tested;

use crate::assertions::same;
use crate::fixtures::{excess, item, numbers};
use eval_runner::Runner;
use query_model::{Checked, Follower};
use std::alloc::{AllocError, Global};
use std::process::Abort;
use std::test::Fail;
use value_ops::{Scalar, Value};

fn checked_excess(alloc: Global) -> Result<Box<Checked>, AllocError>
    ensures stream { IfOk result (λ checked. checked.value.layout.columns ≡ tested.numbers) }
    ensures query { IfOk result (λ checked. plain_of checked.value.main.shape ≡ tested.excess) }
{
    let columns = numbers(alloc)?;
    let main = excess(alloc)?;
    Ok(Box::new(alloc, Checked::new(columns, main))?)
}

// The runner before the first number.
fn begun(alloc: Global, checked: &Checked) -> Result<Box<Runner<'_>>, AllocError>
    requires stream { checked.now.layout.columns ≡ tested.numbers }
    requires composes { composes_of (plain_of checked.now.main.shape) ≤ 1 }
    ensures fed { IfOk result (λ runner. TakesItems tested.numbers runner.value) }
    ensures position { IfOk result (λ runner. position_of runner.value ≡ 0) }
{
    let runner = Runner::new(alloc, checked)?;
    Ok(Box::new(alloc, runner)?)
}

fn value(runner: &Runner<'_>) -> Option<i64> {
    match runner.answer() {
        Some(Value::Scalar(Scalar::Number(number))) => Some(*number),
        _ => None,
    }
}

// The value after one more number.
fn value_after(
    alloc: Global,
    runner: &mut Runner<'_>,
    number: i64,
) -> Result<Option<i64>, AllocError>
    requires fed { TakesItems tested.numbers runner.old }
    requires few { position_of runner.old < 100 }
    ensures fed { OnOk result (TakesItems tested.numbers runner.new) }
    ensures position { OnOk result (position_of runner.new ≡ position_of runner.old + 1) }
{
    let item = item(alloc, number)?;
    runner.step(alloc, &item)?;
    Ok(value(runner))
}

fn copy_of<'q>(alloc: Global, runner: &Runner<'q>) -> Result<Box<Runner<'q>>, AllocError>
    requires { TakesItems tested.numbers runner.now }
    ensures fed { IfOk result (λ copy. TakesItems tested.numbers copy.value) }
    ensures position { IfOk result (λ copy. position_of copy.value ≡ position_of runner.now) }
{
    let copy = runner.try_copy(alloc)?;
    Ok(Box::new(alloc, copy)?)
}

// The copy takes a 9, and then the runner a 4.
fn go_apart(
    rt: &impl Abort,
    alloc: Global,
    runner: &mut Runner<'_>,
    copy: &mut Runner<'_>,
) -> Result<(), Fail>
    requires fed { TakesItems tested.numbers runner.old }
    requires few { position_of runner.old < 90 }
    requires copy_fed { TakesItems tested.numbers copy.old }
    requires copy_few { position_of copy.old < 90 }
    ensures { OnOk result (TakesItems tested.numbers runner.new) }
{
    same(rt, value_after(alloc, copy, 9)?, Some(16));
    same(rt, (copy.stored(), copy.failed()), (10, false));
    same(rt, value(runner), Some(8));
    same(rt, value_after(alloc, runner, 4)?, Some(11));
    Ok(())
}

// Its values are 0 before the first number, 8 after a 9, and 11 after a 9 and a 4.
fn folds(rt: &impl Abort, alloc: Global, runner: &mut Runner<'_>) -> Result<(), Fail>
    requires fed { TakesItems tested.numbers runner.old }
    requires first { position_of runner.old ≡ 0 }
    ensures { OnOk result (TakesItems tested.numbers runner.new) }
{
    same(rt, (value(runner), runner.stored()), (Some(0), 10));
    same(rt, value_after(alloc, runner, 9)?, Some(8));
    let mut copy = copy_of(alloc, runner)?;
    go_apart(rt, alloc, runner, &mut copy)
}

fn begin_anew(alloc: Global, runner: &mut Runner<'_>) -> Result<(), AllocError>
    requires { TakesItems tested.numbers runner.old }
    ensures fed { OnOk result (TakesItems tested.numbers runner.new) }
    ensures position { OnOk result (position_of runner.new ≡ 0) }
{
    runner.reset(alloc)
}

fn begins_anew(rt: &impl Abort, alloc: Global, runner: &mut Runner<'_>) -> Result<(), Fail>
    requires { TakesItems tested.numbers runner.old }
{
    begin_anew(alloc, runner)?;
    same(rt, (value(runner), runner.stored()), (Some(0), 10));
    same(rt, value_after(alloc, runner, 4)?, Some(3));
    Ok(())
}

#[test]
fn a_runner_folds_items_in_two_ways(rt: HostRuntime) -> Result<(), Fail> {
    let checked = checked_excess(rt.alloc())?;
    let mut runner = begun(rt.alloc(), &checked)?;
    folds(&rt, rt.alloc(), &mut runner)?;
    begins_anew(&rt, rt.alloc(), &mut runner)
}
