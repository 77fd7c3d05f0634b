// What an order settles at, from the sum of the contributions.
ghost use Rattle.std.specs.Prelude.{◌≡◌};
ghost use Rattle.ledger.specs.Settling.{positive as positive_of, ordered_energy, paid_energy, cents as cents_of};
ghost use Rattle.settling.specs.Outcomes.{delivered_by, outcome_by};

use crate::context::OrderContext;
use ledger::records::Outcome;
use ledger::terms::Terms;
use rulebooks::round_div;

fn positive(z: i64) -> u64
    ensures { result ≡ positive_of z }
{
    z.max(0) as u64
}

// With an estimated resource at most what was ordered.
fn delivered(sum: i64, estimated: bool, full: u32) -> u64
    ensures { result ≡ delivered_by sum estimated full }
{
    let energy = positive(sum);
    if estimated {
        energy.min(full.into())
    } else {
        energy
    }
}

// Under six tenths of the ordered energy nothing is paid.
fn paid_energy(full: u32, energy: u32) -> u32
    ensures { result ≡ paid_energy full energy }
{
    if 5 * u64::from(energy) < 3 * u64::from(full) {
        0
    } else {
        energy
    }
}

fn cents(terms: &Terms, energy: u32) -> u64
    ensures { result ≡ cents_of energy terms.now.uf }
{
    let price = i64::from(energy) * i64::from(terms.uf);
    round_div(price, 100_000).map_or(0, positive)
}

impl<S, R> OrderContext<'_, S, R> {
    // In Wh.
    fn ordered_energy(&self) -> u32
        ensures { result ≡ ordered_energy self.now.order }
    {
        self.order.qr * (self.order.q1 - self.order.q0) * 250
    }

    pub(crate) fn outcome(&self, sum: i64, estimated: bool) -> Outcome
        ensures { result ≡ outcome_by self.now.terms.now self.now.order sum estimated }
    {
        let eda = self.ordered_energy();
        let pta = delivered(sum, estimated, eda);
        // At most the ordered energy, so it fits.
        let seta = pta.min(eda.into()) as u32;
        let paid = paid_energy(eda, seta);
        Outcome {
            sum,
            pta,
            eda: eda.into(),
            seta: seta.into(),
            paid: paid.into(),
            pay: cents(self.terms, paid),
        }
    }
}
