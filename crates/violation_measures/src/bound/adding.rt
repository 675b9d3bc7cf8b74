ghost use Rattle.std.specs.Prelude.{◌≡◌, ◌≤◌, ◌*◌, ◌^◌, ◌<◌, length, All, IfOk};
ghost use Rattle.preorder.specs.Violation.{IsWidth};
ghost use Rattle.rulebook_order.specs.StepGraph.{HasRoom};
ghost use Rattle.rulebook_order.specs.Sums.{sums};
ghost use Rattle.violation_measures.specs.Binding.{IsBoundTo};
ghost use Rattle.violation_measures.specs.Steps.{IsStep};
ghost use Rattle.violation_measures.specs.Vectors.{width, step_vector, end_vector, run};
ghost use Rattle.violation_measures.specs.Vectors.{trajectory_vector};

use super::Bound;
use crate::amount::{MAX_AMOUNT, end_value, rule_value};
use crate::source::FeatureSource;
use crate::step::Step;
use preorder::{NoMemory, Violation};
use std::alloc::Global;

/// The most steps of a trajectory.
pub const MAX_STEPS: usize = 2_000;

impl Bound {
    /// How many rules there are.
    pub fn width(&self) -> usize
        ensures { result ≡ width self.now }
    {
        self.book.rules.as_slice().len()
    }

    /// Adds each rule's value at the step: over its parts that are not final, the sum of weight
    /// times value.
    ///
    /// The source agrees with the one bound in all that it finds, and in its bounds. Each number
    /// has room for `MAX_AMOUNT`. No memory is taken.
    pub fn add_step<S: FeatureSource>(&self, source: &S, step: &Step, out: &mut Violation)
        requires source { IsBoundTo (S.features source.now) self.now }
        requires step { IsStep step.now }
        requires width { length out.old ≡ width self.now }
        requires room { HasRoom MAX_AMOUNT out.old }
        ensures { out.new ≡ sums out.old (step_vector (S.features source.now) self.now step.now) }
    {
        let values = source.measure(step, self.at_steps.as_slice());
        let rules = self.rules.as_slice();
        for i in 0..rules.len() {
            let parts = rules[i].parts.as_slice();
            out.add_at(i, rule_value(source, step, &values, parts));
        }
    }

    /// Adds each rule's end value, over its final parts, at the step as the last: finished, without
    /// acceleration, turn and maneuver.
    ///
    /// The source agrees with the one bound in all that it finds, and in its bounds. Each number
    /// has room for `MAX_AMOUNT`. No memory is taken.
    pub fn add_end<S: FeatureSource>(&self, source: &S, step: &Step, out: &mut Violation)
        requires source { IsBoundTo (S.features source.now) self.now }
        requires step { IsStep step.now }
        requires width { length out.old ≡ width self.now }
        requires room { HasRoom MAX_AMOUNT out.old }
        ensures { out.new ≡ sums out.old (end_vector (S.features source.now) self.now step.now) }
    {
        let last = step.finish();
        let values = source.measure(&last, self.at_end.as_slice());
        let rules = self.rules.as_slice();
        for i in 0..rules.len() {
            let parts = rules[i].parts.as_slice();
            out.add_at(i, end_value(source, &last, &values, parts));
        }
    }

    // For each rule the sum of its values over all steps.
    fn run<S: FeatureSource>(
        &self,
        alloc: Global,
        source: &S,
        steps: &[Step],
    ) -> Result<Violation, NoMemory>
        requires source { IsBoundTo (S.features source.now) self.now }
        requires few { length steps.now ≤ MAX_STEPS }
        requires steps { All IsStep steps.now }
        ensures { IfOk result (λ vector. vector ≡ run (S.features source.now) self.now steps.now) }
    {
        let mut vector = Violation::zeros(alloc, self.width())?;
        for step in steps {
            self.add_step(source, step, &mut vector);
        }
        Ok(vector)
    }

    /// The vector of a trajectory: for each rule the sum of its values over all steps, and its end
    /// value at the last. For no steps all numbers are 0.
    ///
    /// The source agrees with the one bound in all that it finds, and in its bounds. There are at
    /// most `MAX_STEPS` steps.
    pub fn trajectory_vector<S: FeatureSource>(
        &self,
        alloc: Global,
        source: &S,
        steps: &[Step],
    ) -> Result<Violation, NoMemory>
        requires source { IsBoundTo (S.features source.now) self.now }
        requires few { length steps.now ≤ MAX_STEPS }
        requires steps { All IsStep steps.now }
        ensures { IfOk result (λ vector. vector ≡ trajectory_vector
            (S.features source.now) self.now steps.now) }
    {
        let mut vector = self.run(alloc, source, steps)?;
        if steps.is_empty() {
            return Ok(vector);
        }
        let last = &steps[steps.len() - 1];
        self.add_end(source, last, &mut vector);
        Ok(vector)
    }
}
