//! Texts and their first faults.

use crate::answers::{Asked, Repeated, expect_answers, expect_repeated, fault_text};
use crate::outcomes::expect_text;
use crate::text_rows::table;
use formula_parse::parse;

// Texts, and the fault of each.
const FAULTS: &str = table![
    ("x=1 | y=2 & z=3", "MixedChain(10)"),
    ("x*y=2", "NotLinear(1)"),
    ("18446744073709551616=x", "Number(0)"),
    ("x+=1", "Syntax(2)"),
    ("", "Syntax(0)"),
    ("T[x]=y", "Syntax(6)"),
    ("1+T[x]=@1", "Syntax(3)"),
    ("x=1 => y=2 => z=3", "MixedChain(11)"),
    ("(2*3)*x=2", "NotLinear(5)"),
    ("T[0]=@2147483648", "Number(5)"),
    ("?msd_2_3 x=1", "Syntax(6)"),
    ("T[0]=@-2147483649", "Number(5)"),
    ("T[0]= @ - 99999999999999999999", "Number(6)"),
    ("@2147483648=T[0]", "Number(0)"),
    ("x=18446744073709551616", "Number(2)"),
    ("x=1+18446744073709551616*", "Number(4)"),
    ("x 18446744073709551616", "Syntax(2)"),
    ("=", "Syntax(0)"),
    ("x", "Syntax(1)"),
    ("x=", "Syntax(2)"),
    ("x=1 &", "Syntax(5)"),
    ("x=1 & ", "Syntax(6)"),
    ("x=1 y=2", "Syntax(4)"),
    ("x=1)", "Syntax(3)"),
    ("(x=1", "Syntax(4)"),
    ("()", "Syntax(1)"),
    ("(x)", "Syntax(3)"),
    ("(x=1)+2=3", "Syntax(5)"),
    ("(x=1)=2", "Syntax(5)"),
    ("E", "Syntax(1)"),
    ("Ex", "Syntax(2)"),
    ("Ex,", "Syntax(3)"),
    ("Ex,y", "Syntax(4)"),
    ("E1 x=1", "Syntax(1)"),
    ("Ex (y),z=1", "Syntax(6)"),
    ("I", "Syntax(1)"),
    ("Ix", "Syntax(2)"),
    ("I1 x=1", "Syntax(1)"),
    ("Ix,y x=y", "Syntax(2)"),
    ("Ex,Iy x=y", "Syntax(3)"),
    ("Ix (y),z=1", "Syntax(6)"),
    ("Ix[0]=@1", "Syntax(2)"),
    ("~", "Syntax(1)"),
    ("x=~1", "Syntax(2)"),
    ("x==1", "Syntax(2)"),
    ("x=!1", "Syntax(2)"),
    ("x!1", "Syntax(1)"),
    ("x<=>1", "Syntax(1)"),
    ("x=1 <= > y=2", "Syntax(4)"),
    ("?x=1", "Syntax(1)"),
    ("?msd_ x=1", "Syntax(1)"),
    ("x=?msd_2 1", "Syntax(2)"),
    ("x=1 ?msd_2 & y=2", "Syntax(4)"),
    ("$", "Syntax(1)"),
    ("$f", "Syntax(2)"),
    ("$f(", "Syntax(3)"),
    ("$f(,x)", "Syntax(3)"),
    ("$f(x,)", "Syntax(5)"),
    ("$f(x=1)", "Syntax(4)"),
    ("$1()", "Syntax(1)"),
    ("@1=@1", "Syntax(3)"),
    ("T[]=@1", "Syntax(2)"),
    ("T[0]", "Syntax(4)"),
    ("T[0]=@x", "Syntax(6)"),
    ("x=1 | y=2 ^ z*w=3", "MixedChain(10)"),
    ("z*w=3 & x=1 | y=2 ^ z=1", "NotLinear(1)"),
    ("x*(y*z)=1", "NotLinear(1)"),
    // Divisors: numerals above 0.
    ("x/0=1", "Syntax(2)"),
    ("6/0=x", "Syntax(2)"),
    ("6/00=x", "Syntax(2)"),
    ("x/ 000000000000000000000=1", "Syntax(3)"),
    ("x/2/0=1", "Syntax(4)"),
    ("x*y/0=1", "Syntax(4)"),
    ("T[x/0]=@1", "Syntax(4)"),
    ("$f(y,x/0)", "Syntax(7)"),
    ("x/", "Syntax(2)"),
    ("x/y=1", "Syntax(2)"),
    ("x/(2)=1", "Syntax(2)"),
    ("x/@2=1", "Syntax(2)"),
    ("x//2=1", "Syntax(2)"),
    ("x/2 3=1", "Syntax(4)"),
    ("x/2^y=1", "Syntax(3)"),
    ("/2=x", "Syntax(0)"),
    ("(x=1)/2=1", "Syntax(5)"),
    ("T[0]/2=1", "Syntax(4)"),
    ("x/18446744073709551616=1", "Number(2)"),
    ("x/2/99999999999999999999*y=1", "Number(4)"),
    // A quotient is a factor that is no numeral.
    ("6/2*x=3", "NotLinear(3)"),
    ("(6/2)*x=3", "NotLinear(5)"),
    ("x*(6/2)=3", "NotLinear(1)"),
    ("2*x/3*y=1", "NotLinear(5)"),
    ("x*y/2=1", "NotLinear(1)"),
    ("x/2*3/4*y/5=1", "NotLinear(7)"),
];

// A byte that begins no text.
const NO_TEXT: &[u8] = b"\xff";

#[test]
fn texts_have_these_faults(rt: HostRuntime) {
    expect_answers(&rt, rt.alloc(), Asked::Fault, FAULTS);
    let fault = parse(rt.alloc(), NO_TEXT).err();
    let found = fault_text(&rt, rt.alloc(), fault);
    expect_text(&rt, "no text", &found, "Syntax(0)");
}

// An equation in parentheses, which nest 128 deep.
static PARENTHESES: [Repeated; 2] = [
    ("(", 128, "x=1", ")", "259 bytes: none"),
    ("(", 129, "x=1", ")", "261 bytes: Depth(128)"),
];

#[test]
fn parentheses_nest_128_deep(rt: HostRuntime) {
    expect_repeated(&rt, rt.alloc(), Asked::Fault, &PARENTHESES);
}

// An equation under quantifiers, which nest 128 deep.
static QUANTIFIERS: [Repeated; 2] = [
    ("Ix ", 128, "x=1", "", "387 bytes: none"),
    ("Ix ", 129, "x=1", "", "390 bytes: Depth(384)"),
];

#[test]
fn quantifiers_nest_128_deep(rt: HostRuntime) {
    expect_repeated(&rt, rt.alloc(), Asked::Fault, &QUANTIFIERS);
}
