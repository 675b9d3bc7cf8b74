//! The certificate of what a search found.

ghost use Rattle.std.specs.Prelude.{◌≡◌, IfOk, map};
ghost use Rattle.domination_proof.specs.Copies.{cert_label, cert_of};

use certificate_text::{CertLabel, Certificate};
use label_search::{Found, Label};
use preorder::{List, NoMemory};
use std::alloc::Global;

// The same numbers.
fn copy_of(alloc: Global, numbers: &[u32]) -> Result<List<u32>, NoMemory>
    ensures { IfOk result (λ copy. copy ≡ numbers.now) }
{
    let mut copy = List::new(alloc);
    for number in numbers {
        copy.push(*number)?;
    }
    Ok(copy)
}

// The numbers of the labels.
fn labels_of<S>(alloc: Global, labels: &[Label<S>]) -> Result<List<CertLabel>, NoMemory>
    ensures { IfOk result (λ copies. copies ≡ map cert_label labels.now) }
{
    let mut copies = List::new(alloc);
    for label in labels {
        copies.push(CertLabel {
            parent: label.parent,
            choice: label.choice,
            links: copy_of(alloc, label.links.as_slice())?,
        })?;
    }
    Ok(copies)
}

/// The certificate with the same numbers, without states and vectors. By `found_is_good` it is good
/// where a search found them.
pub fn certificate_of<S: Copy>(alloc: Global, found: &Found<S>) -> Result<Certificate, NoMemory>
    ensures { IfOk result (λ cert. cert ≡ cert_of found.now) }
{
    let labels = labels_of(alloc, found.labels.as_slice())?;
    let finals = copy_of(alloc, found.finals.as_slice())?;
    let goal_links = copy_of(alloc, found.goal_links.as_slice())?;
    Ok(Certificate {
        labels,
        finals,
        goal_links,
    })
}
