// Numbers that look random, the same ones in every run of the program.

// A number below n; 0 where n is 0.
pub fn draw(r: &mut u64, n: u64) -> u64 {
    let x = benching::next(*r);
    *r = x;
    if n == 0 { 0 } else { (x >> 16) % n }
}
