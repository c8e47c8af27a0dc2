// Runs stored cases through the library and prints what each call answers and changes, one line a case. The cases (`stdin`) and the
// lines expected (`stdout`) are written by the second program, so the gate holds the two programs together. The form of a case is
// described in second/README.md.
#![tactic(auto)]

mod case;
mod lent;

use case::{Call, Case};
use lent::Lent;
use std::io::{self, Read};

fn main(rt: HostRuntime) -> io::Result<()> {
    let mut stream = rt.stdin();
    for _ in 0..65536 {
        if !next_case(&rt, &mut stream)? {
            break;
        }
    }
    Ok(())
}

// Reads a case and runs it; answers whether there was one.
fn next_case<R: Read>(rt: &impl Print, from: &mut R) -> io::Result<bool> {
    let Some(head) = input::read_array(from)? else {
        return Ok(false);
    };
    run_case(rt, from, &Case::from_head(&head))?;
    Ok(true)
}

// A case with its buffers, twice as long as the largest map of version 0 (255 blocks of 1,024 bytes), and as the longest list and image of a
// stored case. No stored map of E+ is longer. A case of two copies has the second one, or the target, in the image's place.
fn run_case<R: Read>(rt: &impl Print, from: &mut R, case: &Case) -> io::Result<()> {
    let mut map = [0u8; 522240];
    let mut list = [0u32; 8192];
    let mut image = [0u8; 32768];
    let map = Lent::read(from, &mut map, case.map_len)?;
    let list = Lent::read(from, &mut list, case.list_len)?;
    let image = Lent::read(from, &mut image, case.image_len)?;
    match case.call {
        Some(call) => {
            run_call(rt, call, case, map.now, list.now, image.now)?;
            print_changes(rt, call, &map, &list, &image)?;
        }
        None => print!(rt; "unknown")?,
    }
    println!(rt)
}

// What changed of the list, the map, the image and the target, of a call that may write it.
fn print_changes(
    rt: &impl Print,
    call: Call,
    map: &Lent<'_, u8>,
    list: &Lent<'_, u32>,
    image: &Lent<'_, u8>,
) -> io::Result<()> {
    if call.writes_list() {
        print!(rt; " list")?;
        list.print_changed(rt)?;
    }
    if call.writes_map() {
        print!(rt; " map")?;
        map.print_changed(rt)?;
    }
    if call.writes_image() {
        print!(rt; " image")?;
        image.print_changed_runs(rt)?;
    }
    if call.writes_copy() {
        print!(rt; " copy")?;
        image.print_changed(rt)?;
    }
    Ok(())
}

// Runs the call, and prints its name, its refusal number, the zone told and its values.
fn run_call(
    rt: &impl Print,
    call: Call,
    case: &Case,
    map: &mut [u8],
    list: &mut [u32],
    image: &mut [u8],
) -> io::Result<()> {
    match call {
        Call::Check => run_check(rt, map),
        Call::List => run_list(rt, case, map, list),
        Call::Free => run_free(rt, map, list),
        Call::Address => run_address(rt, case, map),
        Call::SweepObject => run_sweep_object(rt, case, map, image),
        Call::SweepFree => run_sweep_free(rt, case, map, image),
        Call::Release => run_release(rt, case, map, list),
        Call::Place => run_place(rt, case, map, list),
        Call::Claim => run_claim(rt, case, map, list),
        Call::ChooseCopy => run_choose_copy(rt, map, image),
        Call::CopyOver => run_copy_over(rt, map, image),
        Call::CopyAddresses => run_copy_addresses(rt, map),
        Call::Mend => run_mend(rt, map),
        Call::MendPositions => run_mend_positions(rt, map, list),
        Call::Format => run_format(rt, case, map),
        Call::FormatLength => run_format_length(rt, case),
    }
}

fn run_check(rt: &impl Print, map: &[u8]) -> io::Result<()> {
    let mut zone = 0;
    let answer = shoalswift::shoalswift_check(map, &mut zone);
    print!(rt; "check {answer} {zone}")
}

fn run_list(rt: &impl Print, case: &Case, map: &[u8], list: &mut [u32]) -> io::Result<()> {
    let mut zone = 0;
    let mut pairs = 0;
    let answer = shoalswift::shoalswift_list(map, case.number, list, &mut pairs, &mut zone);
    print!(rt; "list {answer} {zone} {pairs}")
}

fn run_free(rt: &impl Print, map: &[u8], list: &mut [u32]) -> io::Result<()> {
    let mut zone = 0;
    let mut pairs = 0;
    let answer = shoalswift::shoalswift_free(map, list, &mut pairs, &mut zone);
    print!(rt; "free {answer} {zone} {pairs}")
}

fn run_address(rt: &impl Print, case: &Case, map: &[u8]) -> io::Result<()> {
    let mut zone = 0;
    let mut address = 0;
    let mut run = 0;
    let answer = shoalswift::shoalswift_address(
        map,
        case.number,
        case.wide,
        &mut address,
        &mut run,
        &mut zone,
    );
    print!(rt; "address {answer} {zone} {address} {run}")
}

fn run_sweep_object(rt: &impl Print, case: &Case, map: &[u8], image: &mut [u8]) -> io::Result<()> {
    let mut zone = 0;
    let mut count = 0;
    let answer = shoalswift::shoalswift_sweep_object(
        map,
        image,
        case.wide,
        case.fill,
        case.number,
        &mut count,
        &mut zone,
    );
    print!(rt; "sweep_object {answer} {zone} {count}")
}

fn run_sweep_free(rt: &impl Print, case: &Case, map: &[u8], image: &mut [u8]) -> io::Result<()> {
    let mut zone = 0;
    let mut count = 0;
    let answer = shoalswift::shoalswift_sweep_free(
        map, image, case.wide, case.fill, &mut count, &mut zone,
    );
    print!(rt; "sweep_free {answer} {zone} {count}")
}

fn run_release(rt: &impl Print, case: &Case, map: &mut [u8], list: &mut [u32]) -> io::Result<()> {
    let mut zone = 0;
    let mut pairs = 0;
    let answer = shoalswift::shoalswift_release(map, case.number, list, &mut pairs, &mut zone);
    print!(rt; "release {answer} {zone} {pairs}")
}

fn run_place(rt: &impl Print, case: &Case, map: &mut [u8], list: &[u32]) -> io::Result<()> {
    let mut zone = 0;
    let answer = shoalswift::shoalswift_place(map, case.number, list, &mut zone);
    print!(rt; "place {answer} {zone}")
}

fn run_claim(rt: &impl Print, case: &Case, map: &mut [u8], list: &mut [u32]) -> io::Result<()> {
    let mut zone = 0;
    let mut id = 0;
    let mut pairs = 0;
    let answer = shoalswift::shoalswift_claim(
        map,
        case.wide,
        case.number,
        list,
        &mut id,
        &mut pairs,
        &mut zone,
    );
    print!(rt; "claim {answer} {zone} {id} {pairs}")
}

fn run_choose_copy(rt: &impl Print, first: &[u8], second: &[u8]) -> io::Result<()> {
    let mut zone = 0;
    let mut which = 0;
    let mut equal = 0;
    let answer = shoalswift::shoalswift_choose_copy(
        first, second, &mut which, &mut equal, &mut zone,
    );
    print!(rt; "choose_copy {answer} {zone} {which} {equal}")
}

fn run_copy_over(rt: &impl Print, source: &[u8], target: &mut [u8]) -> io::Result<()> {
    let mut zone = 0;
    let answer = shoalswift::shoalswift_copy_over(source, target, &mut zone);
    print!(rt; "copy_over {answer} {zone}")
}

fn run_copy_addresses(rt: &impl Print, map: &[u8]) -> io::Result<()> {
    let mut zone = 0;
    let mut first = 0;
    let mut second = 0;
    let answer = shoalswift::shoalswift_copy_addresses(map, &mut first, &mut second, &mut zone);
    print!(rt; "copy_addresses {answer} {zone} {first} {second}")
}

fn run_mend(rt: &impl Print, map: &mut [u8]) -> io::Result<()> {
    let mut zone = 0;
    let answer = shoalswift::shoalswift_mend(map, &mut zone);
    print!(rt; "mend {answer} {zone}")
}

fn run_mend_positions(rt: &impl Print, map: &[u8], list: &mut [u32]) -> io::Result<()> {
    let mut zone = 0;
    let mut count = 0;
    let answer = shoalswift::shoalswift_mend_positions(map, list, &mut count, &mut zone);
    print!(rt; "mend_positions {answer} {zone} {count}")
}

fn run_format(rt: &impl Print, case: &Case, map: &mut [u8]) -> io::Result<()> {
    let mut zone = 0;
    let answer = shoalswift::shoalswift_format(case.number, case.wide, case.idlen, map, &mut zone);
    print!(rt; "format {answer} {zone}")
}

fn run_format_length(rt: &impl Print, case: &Case) -> io::Result<()> {
    let mut zone = 0;
    let mut length = 0;
    let answer = shoalswift::shoalswift_format_length(
        case.number,
        case.wide,
        case.idlen,
        &mut length,
        &mut zone,
    );
    print!(rt; "format_length {answer} {zone} {length}")
}
