// The fixed sample of the second reader, in one container: what is printed of each trace is held to the second reader's answers.
#![tactic(auto)]

use bundle::container::say_all;
use intake::read_full;

fn main(rt: HostRuntime) {
    let mut input = [0u8; 262144];
    let n = read_full(&mut rt.stdin(), &mut input);
    let _ = say_all(rt.stdout(), &input[..n]);
}
