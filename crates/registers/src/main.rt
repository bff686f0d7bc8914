// The one register over two kinds of entries, houses and parcels: it puts and finds them, and prints what it found. What
// both share is written once, for every kind that has a code. It rests on register.
#![tactic(auto)]

ghost use Rattle.std.specs.Prelude.{◌≡◌};
ghost use Rattle.registers.specs.Entering.{entered, leaves};

mod house;
mod parcel;

use house::House;
use parcel::Parcel;
use register::{Coded, Register};
use std::io;

fn main(rt: HostRuntime) -> io::Result<()> {
    houses(&rt)?;
    parcels(&rt)
}

// The first free place takes the entry, unless its code is 0 or has a place already.
fn enter<E: Coded + Copy>(register: &mut Register<'_, E>, entry: E) -> Option<usize>
    ensures reply { result ≡ entered E.key entry register.old.entries.now }
    ensures after { register.new.entries.now ≡ leaves result entry register.old.entries.now }
{
    let code = entry.code();
    if code == 0 || register.place(code).is_some() {
        return None;
    }
    let at = register.free_place()?;
    register.put(at, entry);
    Some(at)
}

fn houses(rt: &HostRuntime) -> io::Result<()> {
    let mut list = [House { city: 3, code: 9 }; 3];
    let mut register = Register::new(&mut list);
    tell(rt, "house 9, as the register is made", register.place(9))?;
    tell(rt, "free, as the register is made", register.free_place())?;
    tell(
        rt,
        "house 7 enters",
        enter(&mut register, House { city: 1, code: 7 }),
    )?;
    tell(
        rt,
        "house 5 enters",
        enter(&mut register, House { city: 2, code: 5 }),
    )?;
    tell(
        rt,
        "house 7 enters again",
        enter(&mut register, House { city: 4, code: 7 }),
    )?;
    tell(
        rt,
        "house 0 enters",
        enter(&mut register, House { city: 4, code: 0 }),
    )?;
    tell(rt, "house 5", register.place(5))?;
    tell(rt, "house 0", register.place(0))?;
    register.put(0, House { city: 6, code: 5 });
    tell(rt, "house 5, now twice there", register.place(5))?;
    tell(rt, "house 7, now gone", register.place(7))?;
    register.put(3, House { city: 8, code: 8 });
    tell(rt, "house 8, put past the end", register.place(8))?;
    tell(rt, "free", register.free_place())?;
    for House { city, code } in list {
        println!(rt; "city {city}, code {code}")?;
    }
    Ok(())
}

fn parcels(rt: &HostRuntime) -> io::Result<()> {
    let mut list = [Parcel {
        code: 1,
        holds: [0u8, 1],
    }; 1];
    let mut register = Register::new(&mut list);
    tell(
        rt,
        "parcel 65535 enters",
        enter(
            &mut register,
            Parcel {
                code: 65535,
                holds: [2, 3],
            },
        ),
    )?;
    tell(
        rt,
        "parcel 1 enters",
        enter(
            &mut register,
            Parcel {
                code: 1,
                holds: [4, 5],
            },
        ),
    )?;
    tell(rt, "parcel 65535", register.place(65535))?;
    tell(rt, "free", register.free_place())?;
    for Parcel {
        code,
        holds: [first, second],
    } in list {
        println!(rt; "code {code}, holds {first} and {second}")?;
    }
    Ok(())
}

// Prints a place, or that there is none.
fn tell(rt: &HostRuntime, what: &str, place: Option<usize>) -> io::Result<()> {
    match place {
        Some(at) => println!(rt; "{what}: place {at}"),
        None => println!(rt; "{what}: no place"),
    }
}
