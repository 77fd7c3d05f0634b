// Registering a resource.
ghost use Rattle.std.specs.Prelude.{◌≡◌};
ghost use Rattle.ledger.specs.Book.{is_pod_byte, all_pod_bytes, is_used, fields_fit, chosen, is_empty, orders_in};
ghost use Rattle.settlement.specs.Meant.{meaning, register_answer, after_register};

use crate::book::Book;
use ledger::fault::BookFault;
use ledger::records::{Booked, Resource};
use rulebooks::Rulebook;
use stores::store::Store;

fn is_pod_byte(b: u8) -> bool
    ensures { result ≡ is_pod_byte b }
{
    b.is_ascii_uppercase() || b.is_ascii_digit()
}

fn are_pod_bytes(pod: &[u8]) -> bool
    ensures { result ≡ all_pod_bytes pod.now }
{
    pod.iter().all(|b| is_pod_byte(*b))
}

fn is_used(resources: &[Resource], pod: &[u8; 14]) -> bool
    ensures { result ≡ is_used resources.now pod.now }
{
    resources.iter().any(|x| x.pod == *pod)
}

fn fields_fit(resources: &[Resource], pod: &[u8; 14], power: u32) -> bool
    ensures { result ≡ fields_fit resources.now pod.now power }
{
    are_pod_bytes(pod) && !is_used(resources, pod) && (1..=4000).contains(&power)
}

#[tactic(auto, using(crate::proofs::Walks::empty_orders))]
fn is_unbooked(orders: &[Booked]) -> bool
    ensures { result ≡ is_empty (orders_in orders.now) }
{
    orders.is_empty()
}

// Choice 0 stands for 1.
fn chosen_by(choice: u8) -> u8
    ensures { result ≡ chosen choice }
{
    choice.max(1)
}

impl<S: Store + Drop, R: Rulebook + Drop> Book<S, R> {
    // The number of the new resource.
    pub fn register(&mut self, pod: &[u8], choice: u8, power: u32) -> Result<u32, BookFault>
        ensures answer { result ≡ register_answer (meaning S.Store.model R.Rulebook.rules self.old) pod.now choice power }
        ensures after { meaning S.Store.model R.Rulebook.rules self.new ≡ after_register (meaning S.Store.model R.Rulebook.rules self.old) pod.now choice power }
    {
        let pod = <[u8; 14]>::try_from(pod).map_err(|_| BookFault::Fields)?;
        if !fields_fit(&self.resources, &pod, power) {
            return Err(BookFault::Fields);
        }
        if !is_unbooked(self.orders.as_slice()) {
            return Err(BookFault::OrdersBooked);
        }
        let number = self.resources.len() as u32;
        if self.store.width() <= number {
            return Err(BookFault::NoRoom);
        }
        let choice = chosen_by(choice);
        if self.rules.days(choice).is_none() {
            return Err(BookFault::UnknownChoice);
        }
        self.resources.push(Resource { pod, choice, power });
        Ok(number)
    }
}
