//! Rows of the texts of values. The project stands in the file `p`, the text of a value in `v`, and a plan in `q`. The places were counted by hand.

/// Texts, each of which is driven, and decoded as its canonical text.
pub(crate) const READ_BACK: &str = "\
$ drive p a::s.p v q
% decode p a::s.p t
~ namespace a { streamlet s = (p: in Stream(data: Bits(8))); }
@ p
~ root - = 0x0ff 7;
@ v
< tydi-plan 1
< cycles 40
@ q
> root - = 255 7;
= 0
$ drive p a::s.p v q
% decode p a::s.p t
~ namespace a { streamlet s = (p: in Stream(data: Bits(8))); }
@ p
~ root-=1;
@ v
< tydi-plan 1
< cycles 40
@ q
> root - = 1;
= 0
$ drive p a::s.p v q
% decode p a::s.p t
~ namespace a { streamlet s = (p: in Stream(data: Bits(8))); }
@ p
~ root - = ;
@ v
< tydi-plan 1
< cycles 40
@ q
> root - = ;
= 0
$ drive p a::s.p v q
% decode p a::s.p t
~ namespace a { streamlet s = (p: in Stream(data: Bits(8))); }
@ p
~ root - =;
@ v
< tydi-plan 1
< cycles 40
@ q
> root - = ;
= 0
$ drive p a::s.p v q
% decode p a::s.p t
~ namespace a { streamlet s = (p: in Stream(data: Bits(8))); }
@ p
~ root\t-
* 1 13
* 1 10
< =
~ 007 ;
@ v
< tydi-plan 1
< cycles 40
@ q
> root - = 7;
= 0
$ drive p a::s.p v q
% decode p a::s.p t
~ namespace a { streamlet s = (p: in Stream(data: Bits(8))); }
@ p
< root - = 1//two
~ 2;//three
@ v
< tydi-plan 1
< cycles 40
@ q
> root - = 1 2;
= 0
$ drive p a::s.p v q
% decode p a::s.p t
~ namespace a { streamlet s = (p: in Stream(data: Bits(8))); }
@ p
< //![
< root//;
< -//=
~ =1 ;
@ v
< tydi-plan 1
< cycles 40
@ q
> root - = 1;
= 0
$ drive p a::s.p v q
% decode p a::s.p t
~ namespace a { streamlet s = (p: in Stream(data: Bits(8))); }
@ p
~ root - = 000000000000000000000000000000000000001;
@ v
< tydi-plan 1
< cycles 40
@ q
> root - = 1;
= 0
$ drive p a::s.p v q
% decode p a::s.p t
~ namespace a { streamlet s = (p: in Stream(data: Bits(8), dimensionality: 2)); }
@ p
~ root - = [[]] [];
@ v
< tydi-plan 1
< cycles 40
@ q
> root - = [[]] [];
= 0
$ drive p a::s.p v q
% decode p a::s.p t
~ namespace a { streamlet s = (p: in Stream(data: Bits(8), dimensionality: 2)); }
@ p
~ root - = [ [ 1 , 0x2 ] , [ ] ];
@ v
< tydi-plan 1
< cycles 40
@ q
> root - = [[1, 2], []];
= 0
$ drive p a::s.p v q
% decode p a::s.p t
~ namespace a { streamlet s = (p: in Stream(data: Union(a: Bits(8), b: Bits(4), c: Null))); }
@ p
~ root - = c(null);
@ v
< tydi-plan 1
< cycles 40
@ q
> root - = c(null);
= 0
$ drive p a::s.p v q
% decode p a::s.p t
~ namespace a { streamlet s = (p: in Stream(data: Union(a: Bits(8), b: Bits(4), c: Null))); }
@ p
< root - = b ( 5 ) a//x
~ (255) ;
@ v
< tydi-plan 1
< cycles 40
@ q
> root - = b(5) a(255);
= 0
$ drive p a::s.p v q
% decode p a::s.p t
~ namespace a { streamlet s = (p: in Stream(data: Group(a: Bits(8), b: Stream(data: Bits(8), dimensionality: 1, synchronicity: Flatten)), dimensionality: 1)); }
@ p
~ root - = [{a: 1, b: [2,3]}, {a: 4, b: []}];
@ v
< tydi-plan 1
< cycles 40
@ q
> root - = [{a: 1, b: [2, 3]}, {a: 4, b: []}];
= 0
$ drive p a::s.p v q
% decode p a::s.p t
~ namespace a { streamlet s = (p: in Stream(data: Group(a: Bits(8), b: Stream(data: Bits(8), dimensionality: 1, synchronicity: Desync)), dimensionality: 1)); }
@ p
~ root - = [{a: 1, b: apart}]; root b = [[2]] [[], [3]];
@ v
< tydi-plan 1
< cycles 40
@ q
> root - = [{a: 1, b: apart}];
> root b = [[2]] [[], [3]];
= 0
$ drive p a::s.p v q
% decode p a::s.p t
~ namespace a { streamlet s = (p: in Stream(data: Group(r: Bits(8), g: Bits(8), b: Bits(8)), throughput: 2.0, dimensionality: 2)); }
@ p
< root - = [[{r: 1, g: 2, b: 3}, {r: 4, g: 5, b: 6},
~      {r: 7, g: 8, b: 9}]] [];
@ v
< tydi-plan 1
< cycles 40
@ q
> root - = [[{r: 1, g: 2, b: 3}, {r: 4, g: 5, b: 6}, {r: 7, g: 8, b: 9}]] [];
= 0
$ drive p a::s.p v q
% decode p a::s.p t
~ namespace a { streamlet s = (p: in Stream(data: Bits(132))); }
@ p
~ root - = 0x1 0xf00000000000000000000000000000000;
@ v
< tydi-plan 1
< cycles 40
@ q
> root - = 0x000000000000000000000000000000001 0xf00000000000000000000000000000000;
= 0
$ drive p a::s.p v q
% decode p a::s.p t
~ namespace a { streamlet s = (p: in Stream(data: Bits(128))); }
@ p
~ root - = 340282366920938463463374607431768211455 0xffffffffffffffffffffffffffffffff;
@ v
< tydi-plan 1
< cycles 40
@ q
> root - = 340282366920938463463374607431768211455 340282366920938463463374607431768211455;
= 0
$ drive p a::s.p v q
% decode p a::s.p t
~ namespace a { streamlet s = (p: in Stream(data: Group(), keep: true)); }
@ p
~ root - = {} { };
@ v
< tydi-plan 1
< cycles 40
@ q
> root - = {} {};
= 0
$ drive p a::s.p v q
% decode p a::s.p t
~ namespace a { streamlet s = (p: in Stream(data: Group(null: Null, apart: Union(null: Null, root: Bits(4)), root: Bits(4)))); }
@ p
~ root - = {null: null, apart: null(null), root: 3} {null:null,apart:root(4),root:5};
@ v
< tydi-plan 1
< cycles 40
@ q
> root - = {null: null, apart: null(null), root: 3} {null: null, apart: root(4), root: 5};
= 0
$ drive p a::s.p v q
% decode p a::s.p t
~ namespace a { streamlet s = (p: in Stream(data: Bits(8), user: Bits(5))); }
@ p
~ root - = 1 2;
@ v
< tydi-plan 1
< cycles 40
< stream -
< users 1f
@ q
> root - = 1 2;
> // users - 1f 00
= 0
";

/// Why a text is no value of its port, and where.
pub(crate) const UNFIT: &str = "\
$ drive p a::s.p v q
~ namespace a { streamlet s = (p: in Stream(data: Bits(8))); }
@ p
~ root - = 256;
@ v
< tydi-plan 1
< cycles 40
@ q
! tydi: OutOfRange v 1:10
= 1
$ drive p a::s.p v q
~ namespace a { streamlet s = (p: in Stream(data: Bits(8))); }
@ p
~ root - = 1 0x100;
@ v
< tydi-plan 1
< cycles 40
@ q
! tydi: OutOfRange v 1:12
= 1
$ drive p a::s.p v q
~ namespace a { streamlet s = (p: in Stream(data: Union(a: Bits(8), b: Bits(4), c: Null))); }
@ p
~ root - = b(16);
@ v
< tydi-plan 1
< cycles 40
@ q
! tydi: OutOfRange v 1:12
= 1
$ drive p a::s.p v q
~ namespace a { streamlet s = (p: in Stream(data: Bits(132))); }
@ p
~ root - = 0x1000000000000000000000000000000000;
@ v
< tydi-plan 1
< cycles 40
@ q
! tydi: OutOfRange v 1:10
= 1
$ drive p a::s.p v q
~ namespace a { streamlet s = (p: in Stream(data: Bits(8))); }
@ p
~ root - = [1];
@ v
< tydi-plan 1
< cycles 40
@ q
! tydi: WrongShape v 1:10
= 1
$ drive p a::s.p v q
~ namespace a { streamlet s = (p: in Stream(data: Bits(8))); }
@ p
@ v
< tydi-plan 1
< cycles 40
@ q
! tydi: WrongShape v 1:1
= 1
$ drive p a::s.p v q
~ namespace a { streamlet s = (p: in Stream(data: Bits(8))); }
@ p
< // none
~  
@ v
< tydi-plan 1
< cycles 40
@ q
! tydi: WrongShape v 2:2
= 1
$ drive p a::s.p v q
~ namespace a { streamlet s = (p: in Stream(data: Bits(8))); }
@ p
~ root a = 1;
@ v
< tydi-plan 1
< cycles 40
@ q
! tydi: WrongShape v 1:6
= 1
$ drive p a::s.p v q
~ namespace a { streamlet s = (p: in Stream(data: Bits(8))); }
@ p
~ root - = 1; root - = 1;
@ v
< tydi-plan 1
< cycles 40
@ q
! tydi: WrongShape v 1:18
= 1
$ drive p a::s.p v q
~ namespace a { streamlet s = (p: in Stream(data: Bits(8))); }
@ p
~ root - = null;
@ v
< tydi-plan 1
< cycles 40
@ q
! tydi: WrongShape v 1:10
= 1
$ drive p a::s.p v q
~ namespace a { streamlet s = (p: in Stream(data: Bits(8))); }
@ p
~ root - = {};
@ v
< tydi-plan 1
< cycles 40
@ q
! tydi: WrongShape v 1:10
= 1
$ drive p a::s.p v q
~ namespace a { streamlet s = (p: in Stream(data: Bits(8))); }
@ p
~ root - = a(1);
@ v
< tydi-plan 1
< cycles 40
@ q
! tydi: WrongShape v 1:10
= 1
$ drive p a::s.p v q
~ namespace a { streamlet s = (p: in Stream(data: Bits(132))); }
@ p
~ root - = 1;
@ v
< tydi-plan 1
< cycles 40
@ q
! tydi: WrongShape v 1:10
= 1
$ drive p a::s.p v q
~ namespace a { streamlet s = (p: in Stream(data: Bits(8), dimensionality: 2)); }
@ p
~ root - = [1];
@ v
< tydi-plan 1
< cycles 40
@ q
! tydi: WrongShape v 1:11
= 1
$ drive p a::s.p v q
~ namespace a { streamlet s = (p: in Stream(data: Bits(8), dimensionality: 2)); }
@ p
~ root - = [[[1]]];
@ v
< tydi-plan 1
< cycles 40
@ q
! tydi: WrongShape v 1:12
= 1
$ drive p a::s.p v q
~ namespace a { streamlet s = (p: in Stream(data: Bits(8), dimensionality: 2)); }
@ p
~ root - = 1;
@ v
< tydi-plan 1
< cycles 40
@ q
! tydi: WrongShape v 1:10
= 1
$ drive p a::s.p v q
~ namespace a { streamlet s = (p: in Stream(data: Union(a: Bits(8), b: Bits(4), c: Null))); }
@ p
~ root - = 1;
@ v
< tydi-plan 1
< cycles 40
@ q
! tydi: WrongShape v 1:10
= 1
$ drive p a::s.p v q
~ namespace a { streamlet s = (p: in Stream(data: Union(a: Bits(8), b: Bits(4), c: Null))); }
@ p
~ root - = {a: 1};
@ v
< tydi-plan 1
< cycles 40
@ q
! tydi: WrongShape v 1:10
= 1
$ drive p a::s.p v q
~ namespace a { streamlet s = (p: in Stream(data: Union(a: Bits(8), b: Bits(4), c: Null))); }
@ p
~ root - = c(1);
@ v
< tydi-plan 1
< cycles 40
@ q
! tydi: WrongShape v 1:12
= 1
$ drive p a::s.p v q
~ namespace a { streamlet s = (p: in Stream(data: Union(a: Bits(8), b: Bits(4), c: Null))); }
@ p
~ root - = d(1);
@ v
< tydi-plan 1
< cycles 40
@ q
! tydi: UnknownField v 1:10
= 1
$ drive p a::s.p v q
~ namespace a { streamlet s = (p: in Stream(data: Union(a: Bits(8), b: Bits(4), c: Null))); }
@ p
~ root - = c(null) A(1);
@ v
< tydi-plan 1
< cycles 40
@ q
! tydi: UnknownField v 1:18
= 1
$ drive p a::s.p v q
~ namespace a { streamlet s = (p: in Stream(data: Union(a: Bits(8), b: Bits(4), c: Null))); }
@ p
~ root - = null(1);
@ v
< tydi-plan 1
< cycles 40
@ q
! tydi: UnknownField v 1:10
= 1
$ drive p a::s.p v q
~ namespace a { streamlet s = (p: in Stream(data: Group(a: Bits(8), b: Stream(data: Bits(8), dimensionality: 1, synchronicity: Desync)), dimensionality: 1)); }
@ p
~ root - = [{a: 1, b: apart}];
@ v
< tydi-plan 1
< cycles 40
@ q
! tydi: WrongShape v 1:29
= 1
$ drive p a::s.p v q
~ namespace a { streamlet s = (p: in Stream(data: Group(a: Bits(8), b: Stream(data: Bits(8), dimensionality: 1, synchronicity: Desync)), dimensionality: 1)); }
@ p
~ root - = [{a: 1, b: []}]; root b = ;
@ v
< tydi-plan 1
< cycles 40
@ q
! tydi: WrongShape v 1:21
= 1
$ drive p a::s.p v q
~ namespace a { streamlet s = (p: in Stream(data: Group(a: Bits(8), b: Stream(data: Bits(8), dimensionality: 1, synchronicity: Desync)), dimensionality: 1)); }
@ p
~ root b = ; root - = ;
@ v
< tydi-plan 1
< cycles 40
@ q
! tydi: WrongShape v 1:6
= 1
$ drive p a::s.p v q
~ namespace a { streamlet s = (p: in Stream(data: Group(a: Bits(8), b: Stream(data: Bits(8), dimensionality: 1, synchronicity: Flatten)), dimensionality: 1)); }
@ p
~ root - = [{a: 1, b: apart}];
@ v
< tydi-plan 1
< cycles 40
@ q
! tydi: WrongShape v 1:21
= 1
$ drive p a::s.p v q
~ namespace a { streamlet s = (p: in Stream(data: Group(a: Bits(8), b: Stream(data: Bits(8), dimensionality: 1, synchronicity: Flatten)), dimensionality: 1)); }
@ p
~ root - = [{b: [], a: 1}];
@ v
< tydi-plan 1
< cycles 40
@ q
! tydi: WrongShape v 1:12
= 1
$ drive p a::s.p v q
~ namespace a { streamlet s = (p: in Stream(data: Group(a: Bits(8), b: Stream(data: Bits(8), dimensionality: 1, synchronicity: Flatten)), dimensionality: 1)); }
@ p
~ root - = [{a: 1}];
@ v
< tydi-plan 1
< cycles 40
@ q
! tydi: WrongShape v 1:16
= 1
$ drive p a::s.p v q
~ namespace a { streamlet s = (p: in Stream(data: Group(a: Bits(8), b: Stream(data: Bits(8), dimensionality: 1, synchronicity: Flatten)), dimensionality: 1)); }
@ p
~ root - = [{}];
@ v
< tydi-plan 1
< cycles 40
@ q
! tydi: WrongShape v 1:12
= 1
$ drive p a::s.p v q
~ namespace a { streamlet s = (p: in Stream(data: Group(a: Bits(8), b: Stream(data: Bits(8), dimensionality: 1, synchronicity: Flatten)), dimensionality: 1)); }
@ p
~ root - = [{a: 1, b: [], a: 2}];
@ v
< tydi-plan 1
< cycles 40
@ q
! tydi: WrongShape v 1:25
= 1
$ drive p a::s.p v q
~ namespace a { streamlet s = (p: in Stream(data: Group(a: Bits(8), b: Stream(data: Bits(8), dimensionality: 1, synchronicity: Flatten)), dimensionality: 1)); }
@ p
~ root - = [{a: 1, b: [], c: 2}];
@ v
< tydi-plan 1
< cycles 40
@ q
! tydi: UnknownField v 1:25
= 1
$ drive p a::s.p v q
~ namespace a { streamlet s = (p: in Stream(data: Group(a: Bits(8), b: Stream(data: Bits(8), dimensionality: 1, synchronicity: Flatten)), dimensionality: 1)); }
@ p
~ root - = [{c: 256, b: []}];
@ v
< tydi-plan 1
< cycles 40
@ q
! tydi: UnknownField v 1:12
= 1
$ drive p a::s.p v q
~ namespace a { streamlet s = (p: in Stream(data: Group(a: Bits(8), b: Stream(data: Bits(8), dimensionality: 1, synchronicity: Flatten)), dimensionality: 1)); }
@ p
~ root - = [{a: 256, c: []}];
@ v
< tydi-plan 1
< cycles 40
@ q
! tydi: OutOfRange v 1:15
= 1
$ drive p a::s.p v q
~ namespace a { streamlet s = (p: in Stream(data: Group(a: Bits(8), b: Stream(data: Bits(8), dimensionality: 1, synchronicity: Flatten)), dimensionality: 1)); }
@ p
~ root - = [{a: {c: 1}, d: []}];
@ v
< tydi-plan 1
< cycles 40
@ q
! tydi: WrongShape v 1:15
= 1
$ drive p a::s.p v q
~ namespace a { streamlet s = (p: in Stream(data: Group(a: Bits(8), b: Stream(data: Bits(8), dimensionality: 1, synchronicity: Flatten)), dimensionality: 1)); }
@ p
< root - = [{a: 1,
~  b: [2, 300]}];
@ v
< tydi-plan 1
< cycles 40
@ q
! tydi: OutOfRange v 2:9
= 1
$ drive p a::s.p v q
~ namespace a { streamlet s = (p: in Stream(data: Group(), keep: true)); }
@ p
~ root - = {a: 1};
@ v
< tydi-plan 1
< cycles 40
@ q
! tydi: UnknownField v 1:11
= 1
$ drive p a::s.p v q
~ namespace a { streamlet s = (p: in Stream(data: Group(), keep: true)); }
@ p
~ root - = [];
@ v
< tydi-plan 1
< cycles 40
@ q
! tydi: WrongShape v 1:10
= 1
$ drive p a::s.p v q
~ namespace a { streamlet s = (p: in Stream(data: Group(null: Null, apart: Union(null: Null, root: Bits(4)), root: Bits(4)))); }
@ p
~ root - = {null: apart, apart: null(null), root: 3};
@ v
< tydi-plan 1
< cycles 40
@ q
! tydi: WrongShape v 1:17
= 1
";

/// Texts that have not the form of a value, whatever the type: the place right after the longest front with which such a text begins.
pub(crate) const FORMLESS: &str = "\
$ drive p a::s.p v q
~ namespace a { streamlet s = (p: in Stream(data: Bits(8))); }
@ p
~ roota
@ v
< tydi-plan 1
< cycles 40
@ q
! tydi: Syntax v 1:5
= 1
$ drive p a::s.p v q
~ namespace a { streamlet s = (p: in Stream(data: Bits(8))); }
@ p
~ ro
@ v
< tydi-plan 1
< cycles 40
@ q
! tydi: Syntax v 1:3
= 1
$ drive p a::s.p v q
~ namespace a { streamlet s = (p: in Stream(data: Bits(8))); }
@ p
~ rot
@ v
< tydi-plan 1
< cycles 40
@ q
! tydi: Syntax v 1:3
= 1
$ drive p a::s.p v q
~ namespace a { streamlet s = (p: in Stream(data: Bits(8))); }
@ p
~ Root - = 1;
@ v
< tydi-plan 1
< cycles 40
@ q
! tydi: Syntax v 1:1
= 1
$ drive p a::s.p v q
~ namespace a { streamlet s = (p: in Stream(data: Bits(8))); }
@ p
~ root
@ v
< tydi-plan 1
< cycles 40
@ q
! tydi: Syntax v 1:5
= 1
$ drive p a::s.p v q
~ namespace a { streamlet s = (p: in Stream(data: Bits(8))); }
@ p
~ root - 1;
@ v
< tydi-plan 1
< cycles 40
@ q
! tydi: Syntax v 1:8
= 1
$ drive p a::s.p v q
~ namespace a { streamlet s = (p: in Stream(data: Bits(8))); }
@ p
~ root - = 1
@ v
< tydi-plan 1
< cycles 40
@ q
! tydi: Syntax v 1:11
= 1
$ drive p a::s.p v q
~ namespace a { streamlet s = (p: in Stream(data: Bits(8))); }
@ p
~ root - = 1;;
@ v
< tydi-plan 1
< cycles 40
@ q
! tydi: Syntax v 1:12
= 1
$ drive p a::s.p v q
~ namespace a { streamlet s = (p: in Stream(data: Bits(8))); }
@ p
~ root .a = 1;
@ v
< tydi-plan 1
< cycles 40
@ q
! tydi: Syntax v 1:6
= 1
$ drive p a::s.p v q
~ namespace a { streamlet s = (p: in Stream(data: Bits(8))); }
@ p
~ root a..b = 1;
@ v
< tydi-plan 1
< cycles 40
@ q
! tydi: Syntax v 1:8
= 1
$ drive p a::s.p v q
~ namespace a { streamlet s = (p: in Stream(data: Bits(8))); }
@ p
~ root a.b_ = 1;
@ v
< tydi-plan 1
< cycles 40
@ q
! tydi: Syntax v 1:10
= 1
$ drive p a::s.p v q
~ namespace a { streamlet s = (p: in Stream(data: Bits(8))); }
@ p
< root a.b//x
~ .c = 1;
@ v
< tydi-plan 1
< cycles 40
@ q
! tydi: Syntax v 2:1
= 1
$ drive p a::s.p v q
~ namespace a { streamlet s = (p: in Stream(data: Bits(8))); }
@ p
~ root - = 1[];
@ v
< tydi-plan 1
< cycles 40
@ q
! tydi: Syntax v 1:11
= 1
$ drive p a::s.p v q
~ namespace a { streamlet s = (p: in Stream(data: Bits(8))); }
@ p
~ root - = [][];
@ v
< tydi-plan 1
< cycles 40
@ q
! tydi: Syntax v 1:12
= 1
$ drive p a::s.p v q
~ namespace a { streamlet s = (p: in Stream(data: Bits(8))); }
@ p
~ root - = 1a;
@ v
< tydi-plan 1
< cycles 40
@ q
! tydi: Syntax v 1:11
= 1
$ drive p a::s.p v q
~ namespace a { streamlet s = (p: in Stream(data: Bits(8))); }
@ p
~ root - = 0x;
@ v
< tydi-plan 1
< cycles 40
@ q
! tydi: Syntax v 1:12
= 1
$ drive p a::s.p v q
~ namespace a { streamlet s = (p: in Stream(data: Bits(8))); }
@ p
~ root - = 0xag;
@ v
< tydi-plan 1
< cycles 40
@ q
! tydi: Syntax v 1:13
= 1
$ drive p a::s.p v q
~ namespace a { streamlet s = (p: in Stream(data: Bits(8))); }
@ p
~ root - = 0xA;
@ v
< tydi-plan 1
< cycles 40
@ q
! tydi: Syntax v 1:12
= 1
$ drive p a::s.p v q
~ namespace a { streamlet s = (p: in Stream(data: Bits(8))); }
@ p
~ root - = nul;
@ v
< tydi-plan 1
< cycles 40
@ q
! tydi: Syntax v 1:13
= 1
$ drive p a::s.p v q
~ namespace a { streamlet s = (p: in Stream(data: Bits(8))); }
@ p
~ root - = foo ;
@ v
< tydi-plan 1
< cycles 40
@ q
! tydi: Syntax v 1:14
= 1
$ drive p a::s.p v q
~ namespace a { streamlet s = (p: in Stream(data: Bits(8))); }
@ p
~ root - = a__b(1);
@ v
< tydi-plan 1
< cycles 40
@ q
! tydi: Syntax v 1:12
= 1
$ drive p a::s.p v q
~ namespace a { streamlet s = (p: in Stream(data: Bits(8))); }
@ p
~ root - = a_ (1);
@ v
< tydi-plan 1
< cycles 40
@ q
! tydi: Syntax v 1:12
= 1
$ drive p a::s.p v q
~ namespace a { streamlet s = (p: in Stream(data: Bits(8))); }
@ p
~ root - = Null(1);
@ v
< tydi-plan 1
< cycles 40
@ q
! tydi: Syntax v 1:14
= 1
$ drive p a::s.p v q
~ namespace a { streamlet s = (p: in Stream(data: Bits(8))); }
@ p
~ root - = {Null: 1};
@ v
< tydi-plan 1
< cycles 40
@ q
! tydi: Syntax v 1:15
= 1
$ drive p a::s.p v q
~ namespace a { streamlet s = (p: in Stream(data: Bits(8))); }
@ p
~ root - = root;
@ v
< tydi-plan 1
< cycles 40
@ q
! tydi: Syntax v 1:14
= 1
$ drive p a::s.p v q
~ namespace a { streamlet s = (p: in Stream(data: Bits(8))); }
@ p
~ root - = 1 / 2;
@ v
< tydi-plan 1
< cycles 40
@ q
! tydi: Syntax v 1:13
= 1
$ drive p a::s.p v q
~ namespace a { streamlet s = (p: in Stream(data: Bits(8))); }
@ p
~ root - = [1,];
@ v
< tydi-plan 1
< cycles 40
@ q
! tydi: Syntax v 1:13
= 1
$ drive p a::s.p v q
~ namespace a { streamlet s = (p: in Stream(data: Bits(8))); }
@ p
~ root - = [,];
@ v
< tydi-plan 1
< cycles 40
@ q
! tydi: Syntax v 1:11
= 1
$ drive p a::s.p v q
~ namespace a { streamlet s = (p: in Stream(data: Bits(8))); }
@ p
~ root - = [1 2];
@ v
< tydi-plan 1
< cycles 40
@ q
! tydi: Syntax v 1:13
= 1
$ drive p a::s.p v q
~ namespace a { streamlet s = (p: in Stream(data: Bits(8))); }
@ p
~ root - = [1;
@ v
< tydi-plan 1
< cycles 40
@ q
! tydi: Syntax v 1:12
= 1
$ drive p a::s.p v q
~ namespace a { streamlet s = (p: in Stream(data: Bits(8))); }
@ p
~ root - = {a 1};
@ v
< tydi-plan 1
< cycles 40
@ q
! tydi: Syntax v 1:13
= 1
$ drive p a::s.p v q
~ namespace a { streamlet s = (p: in Stream(data: Bits(8))); }
@ p
~ root - = {a: };
@ v
< tydi-plan 1
< cycles 40
@ q
! tydi: Syntax v 1:14
= 1
$ drive p a::s.p v q
~ namespace a { streamlet s = (p: in Stream(data: Bits(8))); }
@ p
~ root - = {1: 2};
@ v
< tydi-plan 1
< cycles 40
@ q
! tydi: Syntax v 1:11
= 1
$ drive p a::s.p v q
~ namespace a { streamlet s = (p: in Stream(data: Bits(8))); }
@ p
~ root - = {a: 1 b: 2};
@ v
< tydi-plan 1
< cycles 40
@ q
! tydi: Syntax v 1:16
= 1
$ drive p a::s.p v q
~ namespace a { streamlet s = (p: in Stream(data: Bits(8))); }
@ p
~ root - = a(1, 2);
@ v
< tydi-plan 1
< cycles 40
@ q
! tydi: Syntax v 1:13
= 1
$ drive p a::s.p v q
~ namespace a { streamlet s = (p: in Stream(data: Bits(8))); }
@ p
~ root - = a();
@ v
< tydi-plan 1
< cycles 40
@ q
! tydi: Syntax v 1:12
= 1
$ drive p a::s.p v q
~ namespace a { streamlet s = (p: in Stream(data: Bits(8))); }
@ p
~ root - = 1 a = 2;
@ v
< tydi-plan 1
< cycles 40
@ q
! tydi: Syntax v 1:14
= 1
$ drive p a::s.p v q
~ namespace a { streamlet s = (p: in Stream(data: Bits(8))); }
@ p
~ root - = 256 [1,];
@ v
< tydi-plan 1
< cycles 40
@ q
! tydi: Syntax v 1:17
= 1
$ drive p a::s.p v q
~ namespace a { streamlet s = (p: in Stream(data: Bits(8))); }
@ p
~ root - = 12(3);
@ v
< tydi-plan 1
< cycles 40
@ q
! tydi: Syntax v 1:12
= 1
$ drive p a::s.p v q
~ namespace a { streamlet s = (p: in Stream(data: Bits(128))); }
@ p
~ root - = 340282366920938463463374607431768211456;
@ v
< tydi-plan 1
< cycles 40
@ q
! tydi: Syntax v 1:48
= 1
$ drive p a::s.p v q
~ namespace a { streamlet s = (p: in Stream(data: Bits(128))); }
@ p
~ root - = 0000000000000000000000000000000000000001;
@ v
< tydi-plan 1
< cycles 40
@ q
! tydi: Syntax v 1:49
= 1
";

/// Texts with comments of all bytes but LF, most of which are no UTF-8.
pub(crate) const RAW: &str = "\
$ drive p a::s.p v q
% decode p a::s.p t
~ namespace a { streamlet s = (p: in Stream(data: Bits(8))); }
@ p
~ root - = 1
^ 
~  2;
^ 
@ v
< tydi-plan 1
< cycles 40
@ q
> root - = 1 2;
= 0
$ drive p a::s.p v q
% decode p a::s.p t
~ namespace a { streamlet s = (p: in Stream(data: Bits(8))); }
@ p
^ 
~ root
^ 
~ -
^ 
~ =
^ 
~ 1
^ 
~ ;
@ v
< tydi-plan 1
< cycles 40
@ q
> root - = 1;
= 0
$ drive p a::s.p v q
% decode p a::s.p t
~ namespace a { streamlet s = (p: in Stream(data: Group(a: Bits(8), b: Stream(data: Bits(8), dimensionality: 1, synchronicity: Flatten)), dimensionality: 1)); }
@ p
~ root - = [{a
^ 
~ : 1,
^ 
~  b:
^ 
~ [
^ 
~ 2 ,
^ 
~ 3]}];
@ v
< tydi-plan 1
< cycles 40
@ q
> root - = [{a: 1, b: [2, 3]}];
= 0
$ drive p a::s.p v q
~ namespace a { streamlet s = (p: in Stream(data: Bits(8))); }
@ p
~ root - =
^ 
~  256;
@ v
< tydi-plan 1
< cycles 40
@ q
! tydi: OutOfRange v 2:2
= 1
$ drive p a::s.p v q
~ namespace a { streamlet s = (p: in Stream(data: Bits(8))); }
@ p
~ root - =
^ 
^ 
~ a(1);
@ v
< tydi-plan 1
< cycles 40
@ q
! tydi: WrongShape v 3:1
= 1
$ drive p a::s.p v q
~ namespace a { streamlet s = (p: in Stream(data: Bits(8))); }
@ p
~ root - = 1
^ 
~ x;
@ v
< tydi-plan 1
< cycles 40
@ q
! tydi: Syntax v 2:2
= 1
";

/// Texts of many members.
pub(crate) const MANY: &str = "\
# three thousand members and a wrong end
$ drive p a::s.p v q
~ namespace a { streamlet s = (p: in Stream(data: Bits(8))); }
@ p
~ root - = 
+ 3000 1 
~ ]
@ v
< tydi-plan 1
< cycles 40
@ q
! tydi: Syntax v 1:6010
= 1
# a leaf behind a million: it is reported before the shape of what has it
$ drive p a::s.p v q
~ namespace a { streamlet s = (p: in Stream(data: Bits(8))); }
@ p
~ root - = 
+ 1000000 1 
~ a(256);
@ v
< tydi-plan 1
< cycles 40
@ q
! tydi: TooManyLeaves v 1:2000012
= 1
";
