//! The answers that an accepted certificate shows.

ghost use Rattle.std.specs.Prelude.{◌≡◌, ◌<◌, length, All, reverse, IfOk};
ghost use Rattle.certificate_checker.specs.GoodCertificate.{ParentIsEarlier, Everywhere};
ghost use Rattle.certificate_checker.specs.GoodCertificate.{LeadsToLabel};
ghost use Rattle.certificate_checker.specs.Answers.{AreListsOf};

use crate::checked::Attained;
use certificate_text::CertLabel;
use preorder::{List, NoMemory, Violation};
use std::alloc::Global;

// The choices from the start to a label, the last one first.
fn choices_back(alloc: Global, labels: &[CertLabel], number: u32) -> Result<Vec<u32>, NoMemory>
    requires number { number < length labels.now }
    requires parents { Everywhere (length labels.now) (ParentIsEarlier labels.now) }
    ensures { IfOk result (λ back. LeadsToLabel labels.now number (reverse back.items)) }
{
    let mut back = Vec::new(alloc);
    let mut at = number as usize;
    while at > 0 {
        let label = &labels[at];
        back.push(label.choice)?;
        at = label.parent as usize;
    }
    Ok(back)
}

// The items from the last to the first.
fn reversed(alloc: Global, items: &[u32]) -> Result<List<u32>, NoMemory>
    ensures { IfOk result (λ list. list ≡ reverse items.now) }
{
    let mut list = List::new(alloc);
    for i in 0..items.len() {
        list.push(items[items.len() - 1 - i])?;
    }
    Ok(list)
}

/// The finished vector of each final, with the choices that the parents give from the start to it.
/// `ends` has the finished vector of each label. Each final is the number of a label, and each label
/// but the first has an earlier one as its parent. It takes memory.
pub fn final_answers(
    alloc: Global,
    labels: &[CertLabel],
    ends: &[Violation],
    finals: &[u32],
) -> Result<List<Attained>, NoMemory>
    requires length { length ends.now ≡ length labels.now }
    requires finals { All (λ f. f < length labels.now) finals.now }
    requires parents { Everywhere (length labels.now) (ParentIsEarlier labels.now) }
    ensures { IfOk result (AreListsOf labels.now ends.now finals.now) }
{
    let mut answers = List::new(alloc);
    for number in finals {
        let back = choices_back(alloc, labels, *number)?;
        answers.push(Attained {
            vector: Violation::copy_of(alloc, ends[*number as usize].as_slice())?,
            choices: reversed(alloc, back.as_slice())?,
        })?;
    }
    Ok(answers)
}
