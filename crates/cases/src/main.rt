// Every example of document 01, every settled reading, every slip and the limits, in one container: what is printed of each is held to
// the file stdout.
#![tactic(auto)]

use bundle::container::say_all;
use intake::read_full;

fn main(rt: HostRuntime) {
    let mut input = [0u8; 1048576];
    let n = read_full(&mut rt.stdin(), &mut input);
    let _ = say_all(rt.stdout(), &input[..n]);
}
