// Runs 01's money cases through the compiled code and prints each answer in ticks and in cents. The same cases stand, of the
// definitions, in proofs/laws/Examples.antt of money.
#![tactic(auto)]

ghost use Rattle.std.specs.Prelude.{◌≡◌, ◌≤◌, take};
ghost use Rattle.money.specs.Answers.{answer_of};
ghost use Rattle.money.specs.Offset.{offset_answer};

use itoa::Buffer;
use money::failure::{Failure, export_charge, import_charge};
use money::guarantee::hour_credit;
use money::imports::Import;
use money::names::Name;
use money::offers::{Offer, cost_at};
use money::offset::{offset, offset_core};
use money::production::{
    Reserve, UnitHour, component_1, component_2, component_3, component_4, unit_hour,
};
use money::refusals::Refusal;
use money::units::{Cents, CentsPerHour, CentsPerStart, Price, Quantity, Ticks};

// ---- printing

fn print_signed(n: Cents) {
    io::write_all(1, Buffer::new().format(n.0).as_bytes());
}

fn print_amount(t: Ticks) {
    print_signed(Cents(t.0));
    io::write_all(1, b" ticks, ");
    print_signed(t.cents());
    io::write_all(1, b" cents\n");
}

fn show(label: &[u8], a: Result<Ticks, Refusal>) {
    io::write_all(1, label);
    io::write_all(1, b": ");
    match a {
        Ok(t) => print_amount(t),
        Err(refusal) => {
            io::write_all(1, b"refused ");
            io::print_decimal(1, refusal.number() as u64);
            io::write_all(1, b"\n");
        }
    }
}

// ---- offers, imports, units

fn one(p: i32, q: u32) -> Offer {
    Offer {
        count: 1,
        prices: [Price(p); 20],
        quantities: [Quantity(q); 20],
    }
}

fn with_pair(mut o: Offer, p: i32, q: u32) -> Offer {
    let n = o.count as usize;
    if n < 20 {
        o.prices[n] = Price(p);
        o.quantities[n] = Quantity(q);
        o.count = o.count + 1;
    }
    o
}

fn ahead() -> Offer {
    let a = with_pair(Offer::default(), 2800, 100);
    let b = with_pair(a, 2800, 300);
    let c = with_pair(b, 3500, 500);
    with_pair(c, 4500, 600)
}

fn slash() -> Import {
    let mut name = [0u8; 12];
    name[0] = b'A';
    name[1] = b'/';
    name[2] = b'B';
    import(
        Name {
            len: 3,
            bytes: name,
        },
        1200000,
        100,
        one(4000, 100),
    )
}

fn letter(b: u8) -> Name {
    let mut name = [0u8; 12];
    name[0] = b;
    Name {
        len: 1,
        bytes: name,
    }
}

fn import(name: Name, credit: i64, q: u32, offer: Offer) -> Import {
    Import {
        name: name,
        credit: Ticks(credit),
        quantities: [Quantity(q); 12],
        offer: offer,
    }
}

fn empty() -> Reserve {
    Reserve {
        prices: [Price(0); 12],
        schedules: [Quantity(0); 12],
        offer: Offer::default(),
    }
}

fn unit(d: u32, r: u32, u: u32, a: u32, spinning: Reserve, rt: Offer) -> UnitHour {
    UnitHour {
        startup: CentsPerStart(0),
        noload: CentsPerHour(37000),
        ahead: [Quantity(d); 12],
        constrained: [Quantity(r); 12],
        unconstrained: [Quantity(u); 12],
        metered: [Quantity(a); 12],
        capacity: [Quantity(600); 12],
        spinning: spinning,
        nonspinning: empty(),
        thirty: empty(),
        aheadoffer: ahead(),
        realoffer: rt,
    }
}

// ---- the cases

fn costs() {
    show(
        b"cost, 100 against 100",
        cost_at(one(4000, 100), Quantity(100)),
    );
    show(
        b"cost, 101 against 100",
        cost_at(one(4000, 100), Quantity(101)),
    );
    show(b"cost, 100,001", cost_at(one(4000, 100), Quantity(100001)));
    let falling = with_pair(one(2000, 10), 1999, 20);
    show(b"cost, 20.00 then 19.99", cost_at(falling, Quantity(5)));
}

fn hour_5() {
    let prices = [Price(3000); 12];
    let totals = [Quantity(250); 12];
    show(
        b"hour 5, A/B",
        hour_credit(one(4000, 100), prices, [Quantity(100); 12]),
    );
    show(
        b"hour 5, C",
        hour_credit(one(3200, 200), prices, [Quantity(200); 12]),
    );
    let a = slash();
    let c = import(letter(b'C'), 480000, 200, one(3200, 200));
    let wrong = import(letter(b'C'), 480001, 200, one(3200, 200));
    let mut entries = [c; 16];
    entries[0] = a;
    show(b"hour 5, offset", offset_core(2, entries, prices, totals));
    show(
        b"hour 5, a name twice",
        offset_core(3, entries, prices, totals),
    );
    show(
        b"hour 5, a 17th import",
        offset_core(17, entries, prices, totals),
    );
    entries[0] = c;
    entries[1] = a;
    show(
        b"hour 5, offset, listed the other way",
        offset_core(2, entries, prices, totals),
    );
    entries[0] = wrong;
    show(
        b"hour 5, a wrong credit",
        offset_core(1, entries, prices, totals),
    );
}

// The first n entries as one lent list.
fn offset_of_first(
    n: usize,
    list: [Import; 17],
    prices: [Price; 12],
    totals: [Quantity; 12],
) -> Result<Ticks, Refusal>
    requires { n ≤ 17 }
    ensures { answer_of result ≡ offset_answer n (take n list) prices totals }
{
    offset(&list[..n], prices, totals)
}

// Hour 5 again, as a lent list.
fn hour_5_lent() {
    let prices = [Price(3000); 12];
    let totals = [Quantity(250); 12];
    let a = slash();
    let c = import(letter(b'C'), 480000, 200, one(3200, 200));
    let mut list = [c; 17];
    list[0] = a;
    show(b"lent, no import", offset_of_first(0, list, prices, totals));
    show(b"lent, offset", offset_of_first(2, list, prices, totals));
    show(
        b"lent, a name twice",
        offset_of_first(3, list, prices, totals),
    );
    show(
        b"lent, a 17th import",
        offset_of_first(17, list, prices, totals),
    );
    list[0] = c;
    list[1] = a;
    show(
        b"lent, offset, listed the other way",
        offset_of_first(2, list, prices, totals),
    );
    list[1] = import(letter(b'A'), 480001, 200, one(3200, 200));
    show(
        b"lent, a wrong credit",
        offset_of_first(2, list, prices, totals),
    );
}

fn negative() {
    let mut prices = [Price(3900); 12];
    prices[0] = Price(5100);
    let mut totals = [Quantity(0); 12];
    totals[0] = Quantity(100);
    show(
        b"5100 once, credit",
        hour_credit(one(4000, 100), prices, [Quantity(100); 12]),
    );
    let entries = [import(letter(b'A'), 0, 100, one(4000, 100)); 16];
    show(
        b"5100 once, offset",
        offset_core(1, entries, prices, totals),
    );
    let list = [entries[0]; 17];
    show(b"5100 once, lent", offset_of_first(1, list, prices, totals));
}

fn unit_of_001() {
    let prices = [Price(3000); 12];
    let spinning = Reserve {
        prices: [Price(600); 12],
        schedules: [Quantity(100); 12],
        offer: one(100, 100),
    };
    let a = with_pair(Offer::default(), 2300, 100);
    let b = with_pair(a, 2300, 300);
    let c = with_pair(b, 3000, 500);
    let h = unit(600, 400, 500, 400, spinning, with_pair(c, 4000, 600));
    show(b"001, C1 of an interval", component_1(h, prices, 0));
    show(b"001, C2 of an interval", component_2(h, prices, 5));
    show(b"001, C3 of an interval", component_3(h, prices, 11));
    show(b"001, C4 of an interval", component_4(h, prices, 11));
    show(b"001, a 13th interval", component_1(h, prices, 12));
    show(b"001, the hour", unit_hour(h, prices));
    let idle = unit(600, 0, 0, 0, empty(), ahead());
    show(b"nothing delivered, C1", component_1(idle, prices, 0));
}

fn scenarios_of_001() {
    let a = with_pair(Offer::default(), 2300, 100);
    let b = with_pair(a, 2300, 300);
    let c = with_pair(b, 3000, 400);
    let d = with_pair(c, 4500, 500);
    let third = unit(400, 500, 300, 500, empty(), with_pair(d, 5500, 600));
    show(
        b"001, scenario 3, C3",
        component_3(third, [Price(2800); 12], 0),
    );
    let e = with_pair(a, 2300, 250);
    let f = with_pair(e, 3800, 300);
    let g = with_pair(f, 4500, 500);
    let fourth = unit(250, 200, 400, 200, empty(), with_pair(g, 5500, 600));
    show(
        b"001, scenario 4, C3",
        component_3(fourth, [Price(4500); 12], 0),
    );
}

fn failures() {
    let import = Failure {
        day_ahead_quantity: Quantity(1000),
        pre_dispatch_quantity: Quantity(900),
        day_ahead_price: Price(10000),
        pre_dispatch_price: Price(10000),
    };
    show(b"002, import charge", import_charge(import, Price(9000)));
    let export = Failure {
        day_ahead_quantity: Quantity(2000),
        pre_dispatch_quantity: Quantity(1500),
        day_ahead_price: Price(90000),
        pre_dispatch_price: Price(80000),
    };
    show(b"002, export charge", export_charge(export, Price(70000)));
}

fn rounding() {
    show(b"half a cent", Ok(Ticks(60)));
    show(b"less than half", Ok(Ticks(59)));
    show(b"half a cent below 0", Ok(Ticks(-60)));
    show(b"less than half below 0", Ok(Ticks(-59)));
}

fn main() {
    costs();
    hour_5();
    hour_5_lent();
    negative();
    unit_of_001();
    scenarios_of_001();
    failures();
    rounding();
}
