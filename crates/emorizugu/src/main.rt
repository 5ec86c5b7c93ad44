// The desk program: a message file from standard input through the desk; answers and figures to standard output.
#![tactic(auto)]

const STDIN: i32 = 0;

const STDOUT: i32 = 1;

const STDERR: i32 = 2;

// Whether the output got out.
fn run(input: &[u8], out: &mut [u8]) -> bool {
    match output::fill(input, out) {
        Some(n) => io::write_all(STDOUT, &out[..n]),
        None => false,
    }
}

fn main() {
    let mut input = io::large_buffer();
    let n = io::read_full(STDIN, &mut input);
    let mut out = [0u8; output::MOST];
    if !run(&input[..n], &mut out) {
        io::write_all(STDERR, b"emorizugu: the output cannot be written\n");
    }
}
