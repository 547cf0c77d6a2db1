//! What each line stands for, with operands that differ, so that a swap of two shows.

use super::shown::shown_form;
use script_parse::parse;
use std::alloc::Global;
use std::process::Abort;
use std::test::Fail;

/// Each row is a line, ` => `, and its form. These set fields and give names.
const SETTINGS: &str = "base 251 => Base p=251 s=1 modulus=None
base 007 => Base p=7 s=1 modulus=None
base 2 3 a^3+a+1 => Base p=2 s=3 modulus=Some(+@3+@1+1@0)
base 3 02 2*0005*a^02-a+01*4 => Base p=3 s=2 modulus=Some(+2*5@2-@1+1*4@0)
base 5 1 3*a^1-a^0 => Base p=5 s=1 modulus=Some(+3@1-@0)
over 1 z => Over n=1 modulus=+@1
over 3 z^3+2*a^2*z-(a-1)*4 => Over n=3 modulus=+@3+2*a^2@1-(+a^1@0-1@0)*4@0
over 012 (-a^3*2+(7-(a)))*a^0*z^12-0 => Over n=12 modulus=+(-a^3*2@0+(+7@0-(+a^1@0)@0)@0)*a^0@12-0@0
module psi = [-z^2*a, 1, (a+z)*z] => Module name=psi list=[-z^2*a^1@0; +1@0; +(+a^1@0+z^1@0)*z^1@0]
module base = [] => Module name=base list=[]
ore u = v => Ore name=u value=v
ore over = over => Ore name=over value=over
ore X1 = [2, -z] => Ore name=X1 value=[+2@0; -z^1@0]
ore u = [] => Ore name=u value=[]
ore u = z => Ore name=u value=+z^1@0
ore a_ = -3 => Ore name=a_ value=-3@0
ore u = -z*t^3+t-5*(z-a)*t^0 => Ore name=u value=-z^1@3+@1-5*(+z^1@0-a^1@0)@0
ore u = (-(-z+2)*(a))*t^128+000 => Ore name=u value=+(-(-z^1@0+2@0)*(+a^1@0)@0)@128+0@0
show as_ => Show name=as_";

/// These ask after one module.
const OF_ONE_MODULE: &str = "rank m => Rank phi=m
rank [z, 1] => Rank phi=[+z^1@0; +1@0]
char n => Char phi=n
char [a^2, z^3] => Char phi=[+a^2@0; +z^3@0]
height p => Height phi=p
height [1, 2, 3] => Height phi=[+1@0; +2@0; +3@0]
ordinary r => Ordinary phi=r
ordinary [-1] => Ordinary phi=[-1@0]
supersingular s => Supersingular phi=s
supersingular [] => Supersingular phi=[]
frob f => Frob phi=f
frob [z*z, a-1] => Frob phi=[+z^1*z^1@0; +a^1@0-1@0]
frobpower g => Frobpower phi=g
frobpower [(z)] => Frobpower phi=[+(+z^1@0)@0]
j m 3 => J phi=m k=3
j j 0 => J phi=j k=0
j [a, 2] 0017 => J phi=[+a^1@0; +2@0] k=17
j m 999999999 => J phi=m k=999999999
image m T^2-a*T+(a+1) => Image phi=m a=+@2-a^1@1+(+a^1@0+1@0)@0 name=None
image m 2*T^016 as w => Image phi=m a=+2@16 name=Some(w)
image [1, z] T => Image phi=[+1@0; +z^1@0] a=+@1 name=None
image [1, z] a*a*T-T^0-7 as image => Image phi=[+1@0; +z^1@0] a=+a^1*a^1@1-@0-7@0 name=Some(image)
quotient m u => Quotient phi=m u=u name=None
quotient n v as w => Quotient phi=n u=v name=Some(w)
quotient [z, 1] [a, 2] => Quotient phi=[+z^1@0; +1@0] u=[+a^1@0; +2@0] name=None
quotient m [z] as n => Quotient phi=m u=[+z^1@0] name=Some(n)
quotient [z] m as n => Quotient phi=[+z^1@0] u=m name=Some(n)
quotient m t-z as n => Quotient phi=m u=+@1-z^1@0 name=Some(n)
motive m u => Motive phi=m u=u
motive [1, z] v => Motive phi=[+1@0; +z^1@0] u=v
motive m [1, z] => Motive phi=m u=[+1@0; +z^1@0]
motive m 2*z*t+t^3 => Motive phi=m u=+2*z^1@1+@3";

/// These ask after two modules.
const OF_TWO_MODULES: &str = "check m n w => Check phi=m psi=n u=w
check [z, 1] phi u => Check phi=[+z^1@0; +1@0] psi=phi u=u
check u [z, 1] phi => Check phi=u psi=[+z^1@0; +1@0] u=phi
check m n [z, 1] => Check phi=m psi=n u=[+z^1@0; +1@0]
check [1] [2] [3] => Check phi=[+1@0] psi=[+2@0] u=[+3@0]
check [1] [2] 3 => Check phi=[+1@0] psi=[+2@0] u=+3@0
check m n t => Check phi=m psi=n u=+@1
iso m n => Iso phi=m psi=n
iso n m => Iso phi=n psi=m
iso [1] m => Iso phi=[+1@0] psi=m
isogenous p r => Isogenous phi=p psi=r
isogenous p [z] => Isogenous phi=p psi=[+z^1@0]
bounded m n 64 => Bounded phi=m psi=n d=64
bounded [1, a] s 00 => Bounded phi=[+1@0; +a^1@0] psi=s d=0
bounded s [a] 05 => Bounded phi=s psi=[+a^1@0] d=5
full f g => Full phi=f psi=g
full [] g => Full phi=[] psi=g
full f [] => Full phi=f psi=[]
fullsize x y => Fullsize phi=x psi=y
fullsize [-a, -z] [-z, -a] => Fullsize phi=[-a^1@0; -z^1@0] psi=[-z^1@0; -a^1@0]";

/// These compute with twisted polynomials.
const OF_TWISTED: &str = "add u v => Add u=u v=v name=None
add v u as w => Add u=v v=u name=Some(w)
add [z, 0] u => Add u=[+z^1@0; +0@0] v=u name=None
add u [z, 0] as v => Add u=u v=[+z^1@0; +0@0] name=Some(v)
add t+1 z+t as w => Add u=+@1+1@0 v=+z^1@0+@1 name=Some(w)
sub f g => Sub u=f v=g name=None
sub g f as h => Sub u=g v=f name=Some(h)
sub [z] (z-1)*t as sub => Sub u=[+z^1@0] v=+(+z^1@0-1@0)@1 name=Some(sub)
sub 2*t [1] => Sub u=+2@1 v=[+1@0] name=None
mul x y => Mul u=x v=y name=None
mul y x as xy => Mul u=y v=x name=Some(xy)
mul 2 t => Mul u=+2@0 v=+@1 name=None
mul t 2 as as2 => Mul u=+@1 v=+2@0 name=Some(as2)
mul t z*t^2-a*z^3*4 => Mul u=+@1 v=+z^1@2-a^1*z^3*4@0 name=None
rdiv u v => Rdiv u=u v=v
rdiv v u => Rdiv u=v v=u
rdiv t^2 [z] => Rdiv u=+@2 v=[+z^1@0]
ldiv p r => Ldiv u=p v=r
ldiv [1, 2] t => Ldiv u=[+1@0; +2@0] v=+@1
common f g => Common u=f v=g
common t-1 f => Common u=+@1-1@0 v=f
multiple g f => Multiple u=g v=f
multiple f t => Multiple u=f v=+@1";

/// Spaces, tabs, comments and carriage returns aren't seen in a form.
const SPACED: &str = " \tiso\tm  n \t => Iso phi=m psi=n
iso m n# n m => Iso phi=m psi=n
add t + 1 z - t as w # as v => Add u=+@1+1@0 v=+z^1@0-@1 name=Some(w)
ore u=[ - z ^ 2 * a ,1 ]\r => Ore name=u value=[-z^2*a^1@0; +1@0]
over 2z^2+z+1 => Over n=2 modulus=+@2+@1+1@0
bounded[1][2]3 => Bounded phi=[+1@0] psi=[+2@0] d=3";

/// That each line of the table is a script of one statement with its form.
fn check_forms(rt: &impl Abort, alloc: Global, table: &str) -> Result<(), Fail> {
    for row in table.split('\n') {
        let (line, want) = row.split_once(" => ").ok_or("a row")?;
        if line.len() > 65536 {
            return Err(Fail::new("a long line"));
        }
        let Ok(script) = parse(alloc, line.as_bytes()) else {
            return Err(Fail::new(line));
        };
        assert_eq!(rt; script.list.as_slice().len(), 1, "{line}");
        let statement = script.list.as_slice().first().ok_or("a statement")?;
        let text = shown_form(alloc, &statement.form)?;
        assert_eq!(rt; text.as_slice(), want.as_bytes(), "{line}");
    }
    Ok(())
}

#[test]
fn forms_of_lines(rt: HostRuntime) -> Result<(), Fail> {
    check_forms(&rt, rt.alloc(), SETTINGS)?;
    check_forms(&rt, rt.alloc(), OF_ONE_MODULE)?;
    check_forms(&rt, rt.alloc(), OF_TWO_MODULES)?;
    check_forms(&rt, rt.alloc(), OF_TWISTED)?;
    check_forms(&rt, rt.alloc(), SPACED)
}
