// A number in groups of three: 1,234,567.
use text::Text;

fn three(line: &mut Text, n: u64) {
    line.decimal(n / 100 % 10);
    line.decimal(n / 10 % 10);
    line.decimal(n % 10);
}

// Up to 999,999,999; the groups above stay together.
pub fn grouped(line: &mut Text, n: u64) {
    if n >= 1_000_000 {
        line.decimal(n / 1_000_000);
        line.literal(b",");
        three(line, n / 1000);
        line.literal(b",");
        three(line, n);
    } else if n >= 1000 {
        line.decimal(n / 1000);
        line.literal(b",");
        three(line, n);
    } else {
        line.decimal(n);
    }
}
