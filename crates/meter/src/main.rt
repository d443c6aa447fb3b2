// The benchmark's program: plays a script of calls on the card, many times over, and prints a sum of what was answered.
// The script comes from standard input: the number of rounds (four bytes, of which the first does not count), the number of bytes that are played once first (two bytes), and calls. A call is its
// kind (0 a command, 1 the result of a job), its length in two bytes, and its bytes. Numbers have the highest byte first.

#![tactic(auto)]

ghost use Rattle.std.specs.Prelude.{◌≡◌, ◌≤◌, ◌<◌, length, IfOk, IfSome};

use rules::Session;
use std::io;
use std::io::Read;

const MODULUS: u64 = 4294967291;

// The first two bytes of the response buffer count, in which a short answer has its status word.
fn added(resp: &[u8; 258], sum: u64) -> u64
    requires { sum < MODULUS }
    ensures { result < MODULUS }
{
    let word = u16::from_be_bytes([resp[0], resp[1]]);
    (sum * 257 + u64::from(word)) % MODULUS
}

// A call of the script, with its bytes.
#[derive(Clone, Copy)]
enum Call<'a> {
    Command(&'a [u8]),
    Result(&'a [u8]),
}

// The first call of a script, and what stands behind it. None where the script is cut short.
fn first_call(script: &[u8]) -> Option<(Call<'_>, &[u8])>
    ensures { IfSome result (λ r. length r.1.now < length script.now) }
{
    let (head, rest) = script.split_at_checked(3)?;
    let (bytes, behind) = rest.split_at_checked(numbers::be16(head, 1))?;
    let call = if head[0] == 0 {
        Call::Command(bytes)
    } else {
        Call::Result(bytes)
    };
    Some((call, behind))
}

// What the card is lent. The session is no part of it: by value it costs a call some hundred instructions less.
#[derive(Drop)]
struct Desk {
    store: [u8; 33400],
    work: [u8; 13321],
    resp: [u8; 258],
}

impl Desk {
    // 01's fixed card, with an RSA key 9A and 9E and a P-256 key 9C and 9D.
    fn new() -> Self {
        let mut store = [0; 33400];
        issued::fixed_card(&mut store);
        octets::put(&mut store, 28, &[0x07, 0x11, 0x11, 0x07]);
        Desk {
            store,
            work: [0; 13321],
            resp: [0; 258],
        }
    }

    fn call(&mut self, s: Session, call: Call<'_>) -> Session {
        let Desk { store, work, resp } = self;
        match call {
            Call::Command(bytes) => {
                let r = card::command(s, store, work, resp, bytes);
                r.session
            }
            Call::Result(bytes) => {
                let r = card::job_result(s, store, work, resp, false, bytes);
                r.session
            }
        }
    }

    // The first bytes once, and then the others n times, until a call is cut short: in one loop over the calls, between which no session is handed over.
    fn play(&mut self, first: &[u8], each: &[u8], n: u32) -> u64 {
        let mut s = card::power_on(&self.store, &mut self.work, false).session;
        let mut sum = 0;
        let mut rest = first;
        for _ in 0..=n {
            while let Some((call, behind)) = first_call(rest) {
                s = self.call(s, call);
                sum = added(&self.resp, sum);
                rest = behind;
            }
            if !rest.is_empty() {
                break;
            }
            rest = each;
        }
        sum
    }

    fn run(&mut self, script: &[u8]) -> u64 {
        let Some((head, calls)) = script.split_at_checked(6) else {
            return 0;
        };
        let (first, each) = calls.split_at(numbers::be16(head, 4).min(calls.len()));
        self.play(first, each, numbers::be24(head, 1))
    }
}

// Reads until the buffer is full or the input ends, and says how many bytes it put at its start (std reads to the end on the heap alone). A read that fails ends the program with the error.
fn fill(rt: &HostRuntime, buffer: &mut [u8; 65536]) -> io::Result<usize>
    ensures { IfOk result (λ n. n ≤ 65536) }
{
    let mut done = 0;
    while done < buffer.len() {
        match rt.stdin().read(&mut buffer[done..])? {
            0 => break,
            n => done += n,
        }
    }
    Ok(done)
}

fn main(rt: HostRuntime) -> io::Result<()> {
    let mut script = [0u8; 65536];
    let n = fill(&rt, &mut script)?;
    let sum = Desk::new().run(&script[..n]);
    println!(rt; "{sum}")
}
