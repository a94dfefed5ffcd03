// Packed books worked through fixed lists of calls: each line is a call's answer and the ladder after it.
#![tactic(auto)]

ghost use Rattle.std.specs.Prelude.{◌≡◌, min, IfOk};
ghost use Rattle.std.proofs.Common.{rules};

use anyhow::Context;
use book::{Book, BookFault, MadeBook, Order, PackedBook, Side, Terms};
use fields::{Decimal, DecimalKind, OrderId, Pair};
use quotes::requote;
use std::alloc::{AllocError, Global};
use std::fmt;
use std::io::Write;

// Terms of one letter.
#[derive(Clone, Copy)]
struct Mark {
    letter: u8,
}

impl Terms for Mark {
    type Row = u8;

    ghost row = { λ t. t.letter };

    ghost given = { λ r. record { letter = r } };

    ghost back = { Prim.search rules };

    fn to_row(&self) -> u8 {
        self.letter
    }

    fn from_row(plain: u8) -> Mark {
        Mark { letter: plain }
    }
}

fn pair_of(text: &str) -> anyhow::Result<Pair> {
    Pair::read(text.as_bytes()).ok().context("no pair")
}

// The id of a number below 1000, as three digits.
fn id_of(n: u32) -> anyhow::Result<OrderId> {
    let mut bytes = [b' '; 15];
    write!(&mut bytes[..3], "{n:03}")?;
    OrderId::read(&bytes).ok().context("no id")
}

// The price or amount of a count, or this error.
fn decimal_of<K: DecimalKind>(count: u64, missing: &'static str) -> anyhow::Result<Decimal<K>> {
    Decimal::from_count(count).context(missing)
}

fn order_of(pair: &str, side: Side, n: u32, price: u64) -> anyhow::Result<Order<Mark>> {
    Ok(Order {
        pair: pair_of(pair)?,
        side,
        id: id_of(n)?,
        price: decimal_of(price, "no price")?,
        amount: decimal_of(100, "no amount")?,
        terms: Mark { letter: b'a' },
    })
}

fn text_of(bytes: &[u8]) -> &str {
    std::str::from_utf8(bytes).map_or("?", |text| text.trim_end())
}

// An order as a line shows it.
#[derive(Drop)]
struct Shown(Order<Mark>);

impl fmt::Display for Shown {
    fn fmt<W: fmt::Write>(&self, f: &mut fmt::Formatter<W>) -> fmt::Result {
        let order = &self.0;
        let pair = order.pair.bytes();
        let id = order.id.bytes();
        write!(
            f,
            "[{} {} {} {} {}{}]",
            text_of(&pair),
            order.side,
            order.price.count(),
            text_of(&id),
            order.amount.count(),
            order.terms.letter as char,
        )
    }
}

// Makes a book of so many slots and gives the capacity that it tells; the contract follows from the book's promises alone.
fn capacity_of(heap: Global, slots: usize) -> Result<usize, AllocError>
    ensures { IfOk result (λ n. n ≡ min slots 512) }
{
    let book = PackedBook::<Mark>::new(heap, slots)?;
    Ok(book.capacity())
}

// A packed book that is worked through calls, and the runtime on which their answers are printed. Each call has a pair, an id and
// a price of its own, so these stay arguments.
#[derive(Drop)]
struct Trial<'a> {
    rt: &'a HostRuntime,
    book: PackedBook<Mark>,
}

impl<'a> Trial<'a> {
    fn new(rt: &'a HostRuntime, slots: usize) -> anyhow::Result<Trial<'a>> {
        let book = PackedBook::<Mark>::new(rt.alloc(), slots)?;
        let capacity = capacity_of(rt.alloc(), slots)?;
        println!(rt; "slots {slots} capacity {capacity} length {}", book.len())?;
        Ok(Trial { rt, book })
    }

    // The answer, the length, and the orders by rank.
    fn print(&self, answer: Result<(), BookFault>) -> anyhow::Result<()> {
        let rt = self.rt;
        match answer {
            Ok(()) => print!(rt; "done")?,
            Err(fault) => print!(rt; "{}", fault.number())?,
        }
        let len = self.book.len();
        print!(rt; " {len}:")?;
        for order in (0..len).filter_map(|rank| self.book.at(rank)) {
            print!(rt; " {}", Shown(order))?;
        }
        println!(rt)?;
        Ok(())
    }

    fn place(&mut self, pair: &str, side: Side, n: u32, price: u64) -> anyhow::Result<()> {
        let order = order_of(pair, side, n, price)?;
        let answer = self.book.place(&order);
        self.print(answer)
    }

    fn amend(&mut self, pair: &str, n: u32) -> anyhow::Result<()> {
        let terms = Mark { letter: b'b' };
        let answer = self.book.amend(
            pair_of(pair)?,
            id_of(n)?,
            decimal_of(250, "no amount")?,
            terms,
        );
        self.print(answer)
    }

    fn remove(&mut self, pair: &str, n: u32) -> anyhow::Result<()> {
        let answer = self.book.remove(pair_of(pair)?, id_of(n)?);
        self.print(answer)
    }

    fn clear(&mut self, pair: &str) -> anyhow::Result<()> {
        self.book.clear(pair_of(pair)?);
        self.print(Ok(()))
    }

    // An order given another price.
    fn requote(&mut self, pair: &str, n: u32, price: u64) -> anyhow::Result<()> {
        let answer = requote(
            &mut self.book,
            pair_of(pair)?,
            id_of(n)?,
            decimal_of(price, "no price")?,
        );
        if let Ok(rank) = answer {
            let rt = self.rt;
            print!(rt; "rank {rank} ")?;
        }
        self.print(answer.map(|_| ()))
    }

    fn print_rank(&self, rank: Option<usize>) -> anyhow::Result<()> {
        let rt = self.rt;
        match rank {
            Some(rank) => println!(rt; "rank {rank}")?,
            None => println!(rt; "none")?,
        }
        Ok(())
    }

    fn rank_of(&self, pair: &str, n: u32) -> anyhow::Result<()> {
        self.print_rank(self.book.rank_of(pair_of(pair)?, id_of(n)?))
    }

    fn rank_at(&self, pair: &str, side: Side, price: u64) -> anyhow::Result<()> {
        self.print_rank(
            self.book
                .rank_at(pair_of(pair)?, side, decimal_of(price, "no price")?),
        )
    }

    fn at(&self, rank: usize) -> anyhow::Result<()> {
        let rt = self.rt;
        match self.book.at(rank) {
            Some(order) => println!(rt; " {}", Shown(order))?,
            None => println!(rt; "none")?,
        }
        Ok(())
    }
}

fn run_smallest(rt: &HostRuntime) -> anyhow::Result<()> {
    let mut none = Trial::new(rt, 0)?;
    none.place("EUR/USD", Side::Bid, 1, 126_000)?;
    let mut one = Trial::new(rt, 1)?;
    one.place("EUR/USD", Side::Bid, 1, 126_000)?;
    one.place("EUR/USD", Side::Offer, 1, 127_000)?;
    one.place("EUR/USD", Side::Bid, 2, 126_000)?;
    one.remove("EUR/USD", 2)?;
    one.remove("EUR/USD", 1)?;
    one.place("EUR/USD", Side::Bid, 2, 126_000)
}

fn fill_five(trial: &mut Trial) -> anyhow::Result<()> {
    trial.place("USD/JPY", Side::Offer, 4, 9_651_500)?;
    trial.place("EUR/USD", Side::Bid, 2, 126_000)?;
    trial.place("EUR/USD", Side::Bid, 8, 127_000)?;
    trial.place("EUR/USD", Side::Offer, 2, 128_000)?;
    trial.place("EUR/USD", Side::Bid, 4, 127_000)?;
    trial.place("EUR/USD", Side::Offer, 5, 128_000)?;
    trial.place("GBP/USD", Side::Bid, 1, 150_000)?;
    trial.place("EUR/USD", Side::Bid, 4, 150_000)
}

fn ask_five(trial: &Trial) -> anyhow::Result<()> {
    trial.rank_of("EUR/USD", 4)?;
    trial.rank_of("USD/JPY", 4)?;
    trial.rank_of("USD/JPY", 8)?;
    trial.rank_at("EUR/USD", Side::Offer, 128_000)?;
    trial.rank_at("EUR/USD", Side::Bid, 128_000)?;
    trial.at(4)?;
    trial.at(5)
}

fn change_five(trial: &mut Trial) -> anyhow::Result<()> {
    trial.amend("EUR/USD", 4)?;
    trial.amend("GBP/USD", 4)?;
    trial.requote("EUR/USD", 8, 126_000)?;
    trial.requote("EUR/USD", 9, 126_000)?;
    trial.remove("EUR/USD", 2)?;
    trial.remove("EUR/USD", 2)?;
    trial.place("EUR/USD", Side::Offer, 6, 127_500)?;
    trial.remove("EUR/USD", 8)?;
    trial.place("EUR/JPY", Side::Offer, 4, 12_207_300)?;
    trial.clear("EUR/USD")?;
    trial.clear("EUR/USD")
}

// Two prices in turn, until the book is full.
fn fill_up(book: &mut PackedBook<Mark>) -> anyhow::Result<u32> {
    for n in 0..600u32 {
        let price = if n % 2 == 0 { 100_001 } else { 100_000 };
        let order = order_of("EUR/USD", Side::Bid, n, price)?;
        if book.place(&order).is_err() {
            return Ok(n);
        }
    }
    Ok(600)
}

fn run_full(rt: &HostRuntime, slots: usize) -> anyhow::Result<()> {
    let mut full = Trial::new(rt, slots)?;
    let placed = fill_up(&mut full.book)?;
    println!(rt; "placed {placed}")?;
    for rank in [0, 255, 256, 511, 512] {
        full.at(rank)?;
    }
    full.clear("EUR/USD")
}

fn run(rt: &HostRuntime) -> anyhow::Result<()> {
    run_smallest(rt)?;
    let mut five = Trial::new(rt, 5)?;
    fill_five(&mut five)?;
    ask_five(&five)?;
    change_five(&mut five)?;
    run_full(rt, 512)?;
    run_full(rt, 600)
}

fn main(rt: HostRuntime) -> anyhow::Result<()> {
    run(&rt)
}
