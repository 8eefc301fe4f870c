// The incident of the request, on the layer that came of it.
//
// Two customers' positioning programs run as processes 0 and 1. Process 0 lent a buffer at address 0xFFFFFFFF with length 2. The layer of that
// day worked out its end as a sum in 32 bits; the sum wrapped to 1, 1 lies below every limit, so the buffer was taken, and what the receiver
// put into it landed in process 1's memory. Here the sum is exact: the buffer is refused with INVAL, nothing is held, and a deposit for it is
// refused too. What is deposited for process 1 lands in its buffer, and in no other byte of the image; a driver fetches it from there, for
// process 1 and not for process 0.

#![tactic(auto)]

use layer::Place;
use std::io;
use table::Table;
use types::{Answer, Driver, Image, Process, Refusal, Registers};

// An answer, as a line of document 01.
fn print_answer(output: &impl Print, answer: Result<Answer, Refusal>) -> io::Result<()> {
    match answer {
        Ok(Answer::Registers(r0, r1, r2, r3)) => println!(output; "A {r0} {r1} {r2} {r3}"),
        Ok(Answer::Deposited) => println!(output; "D"),
        Ok(Answer::Started) => println!(output; "started"),
        Ok(_) => println!(output; "other"),
        Err(refusal) => println!(output; "X {}", u32::from(refusal)),
    }
}

// The bytes of a fetch or its number, as a line of document 01.
fn print_fetched(output: &impl Print, fetched: Result<&[u8], u32>) -> io::Result<()> {
    let bytes = match fetched {
        Ok(bytes) => bytes,
        Err(number) => return println!(output; "X {number}"),
    };
    print!(output; "F {}", bytes.len())?;
    for byte in bytes {
        print!(output; " {byte}")?;
    }
    println!(output; "")
}

// How many of the bytes are not zero.
fn written(bytes: &[u8]) -> usize {
    bytes.iter().filter(|byte| **byte != 0).count()
}

// What the receiver's kernel keeps: the table, and the images of memory and flash. Each step names slot 0 of driver 1.
#[derive(Drop)]
struct Receiver {
    table: [u32; Table::WORDS],
    memory: [u8; Image::BYTES],
    flash: [u8; Image::BYTES],
}

impl Receiver {
    // An allow: class 3 is read-write, class 4 read-only.
    fn allow(
        &mut self,
        process: Process,
        class: u8,
        address: u32,
        size: u32,
    ) -> Result<Answer, Refusal> {
        let registers = Registers {
            r0: 1,
            r1: 0,
            r2: address,
            r3: size,
        };
        bridge::call(&mut self.table, &mut self.memory, process, class, registers)
    }

    // A deposit into the read-write buffer.
    fn deposit(&mut self, process: Process, offset: u32, bytes: &[u8]) -> Result<Answer, Refusal> {
        bridge::deposit(
            &self.table,
            &mut self.memory,
            process,
            Driver(1),
            0,
            offset,
            bytes,
        )
    }

    // A fetch of four bytes of the read-only buffer, read where they lie; the bridge tells its number in a word, 0 where it is accepted.
    fn fetch(&self, process: Process, offset: u32) -> Result<&[u8], u32> {
        let mut number = 0u32;
        let part = bridge::fetch(
            &self.table,
            &self.memory,
            &self.flash,
            process,
            Driver(1),
            0,
            offset,
            4,
            &mut number,
        );
        if number == 0 { Ok(part) } else { Err(number) }
    }

    // The same fetch: its number, and where those bytes lie. The bridge tells both, whatever the fetch is.
    fn locate(&self, process: Process, offset: u32) -> (u32, Place) {
        let mut number = 0u32;
        let part = bridge::fetch_place(
            &self.table,
            &self.memory,
            &self.flash,
            process,
            Driver(1),
            0,
            offset,
            4,
            &mut number,
        );
        (number, part)
    }
}

fn main(rt: HostRuntime) -> io::Result<()> {
    // Document 01's board: two processes, each with 8 KiB of RAM and 16 KiB of flash, and two drivers.
    let board = [
        2,
        0x2000_0000,
        0x2000_2000,
        0x2000_1800,
        0x2000_1000,
        0x0004_0000,
        0x0004_4000,
        3,
        0x2000_2000,
        0x2000_4000,
        0x2000_3800,
        0x2000_3000,
        0x0004_4000,
        0x0004_8000,
        3,
        2,
        1,
        2,
        1,
        1,
        0,
        0x9_0000,
        1,
        1,
        0,
        1,
    ];
    let mut receiver = Receiver {
        table: [0; Table::WORDS],
        memory: [0; Image::BYTES],
        flash: [0; Image::BYTES],
    };
    let data = [71, 80, 83, 33];
    let output = rt.stdout();

    print_answer(&output, bridge::start(&mut receiver.table, &board))?;

    println!(&output;
        "a sum in 32 bits ends at {}",
        0xFFFF_FFFFu32.wrapping_add(2)
    )?;

    // Process 0 lends the wrapping buffer; a driver tries to fill it.
    print_answer(&output, receiver.allow(Process(0), 3, 0xFFFF_FFFF, 2))?;
    print_answer(&output, receiver.deposit(Process(0), 0, &data))?;

    // Process 1 lends 16 bytes at 0x20002100; a driver fills the last four, and then tries to go one byte past the end.
    print_answer(&output, receiver.allow(Process(1), 3, 0x2000_2100, 16))?;
    print_answer(&output, receiver.deposit(Process(1), 12, &data))?;
    print_answer(&output, receiver.deposit(Process(1), 13, &data))?;

    let inside = written(&receiver.memory[0x210C..0x2110]);
    let all = written(&receiver.memory);
    println!(&output;
        "bytes written in the buffer's last four {inside}, in the whole image {all}"
    )?;

    // Process 1 lends the same 16 bytes read-only; a driver fetches the last four, which stand at 0x2000210C. Process 0 has lent nothing.
    print_answer(&output, receiver.allow(Process(1), 4, 0x2000_2100, 16))?;
    print_fetched(&output, receiver.fetch(Process(1), 12))?;
    let (number, part) = receiver.locate(Process(1), 12);
    let image = match part.image {
        Image::Memory => "memory",
        Image::Flash => "flash",
    };
    println!(&output;
        "in the {image} image from byte {}, with number {number}",
        part.place
    )?;
    print_fetched(&output, receiver.fetch(Process(0), 0))
}
