//! Rows of `verilog`. The project stands in the file `p`.

/// Modules, and why some projects have none.
pub(crate) const VERILOG: &str = "\
# a design of a user: a module whose inside is a file, and one that wires it
$ verilog p
< namespace video {
<   type rgb = Group(r: Bits(8), g: Bits(8), b: Bits(8));
<   type frames = Stream(data: rgb, throughput: 2.0,
<     dimensionality: 2, complexity: 4);
<   streamlet invert = (a: in frames, b: out frames);
<   streamlet top = (a: in frames, b: out frames);
<   impl wiring of top = { i = invert; a -- i.a; i.b -- b; };
< }
@ p
> `default_nettype none
> module \\video.invert (
>   input wire clk,
>   input wire rst,
>   input wire \\a.valid ,
>   output wire \\a.ready ,
>   input wire [47:0] \\a.data ,
>   input wire [3:0] \\a.last ,
>   input wire [0:0] \\a.endi ,
>   input wire [1:0] \\a.strb ,
>   output wire \\b.valid ,
>   input wire \\b.ready ,
>   output wire [47:0] \\b.data ,
>   output wire [3:0] \\b.last ,
>   output wire [0:0] \\b.endi ,
>   output wire [1:0] \\b.strb 
> );
>   `include \"video.invert.vh\"
> endmodule
> module \\video.top (
>   input wire clk,
>   input wire rst,
>   input wire \\a.valid ,
>   output wire \\a.ready ,
>   input wire [47:0] \\a.data ,
>   input wire [3:0] \\a.last ,
>   input wire [0:0] \\a.endi ,
>   input wire [1:0] \\a.strb ,
>   output wire \\b.valid ,
>   input wire \\b.ready ,
>   output wire [47:0] \\b.data ,
>   output wire [3:0] \\b.last ,
>   output wire [0:0] \\b.endi ,
>   output wire [1:0] \\b.strb 
> );
>   wire \\i.a.valid ;
>   wire \\i.a.ready ;
>   wire [47:0] \\i.a.data ;
>   wire [3:0] \\i.a.last ;
>   wire [0:0] \\i.a.endi ;
>   wire [1:0] \\i.a.strb ;
>   wire \\i.b.valid ;
>   wire \\i.b.ready ;
>   wire [47:0] \\i.b.data ;
>   wire [3:0] \\i.b.last ;
>   wire [0:0] \\i.b.endi ;
>   wire [1:0] \\i.b.strb ;
>   \\video.invert \\i (
>     .clk(clk),
>     .rst(rst),
>     .\\a.valid (\\i.a.valid ),
>     .\\a.ready (\\i.a.ready ),
>     .\\a.data (\\i.a.data ),
>     .\\a.last (\\i.a.last ),
>     .\\a.endi (\\i.a.endi ),
>     .\\a.strb (\\i.a.strb ),
>     .\\b.valid (\\i.b.valid ),
>     .\\b.ready (\\i.b.ready ),
>     .\\b.data (\\i.b.data ),
>     .\\b.last (\\i.b.last ),
>     .\\b.endi (\\i.b.endi ),
>     .\\b.strb (\\i.b.strb )
>   );
>   assign \\i.a.valid = \\a.valid ;
>   assign \\a.ready = \\i.a.ready ;
>   assign \\i.a.data = \\a.data ;
>   assign \\i.a.last = \\a.last ;
>   assign \\i.a.endi = \\a.endi ;
>   assign \\i.a.strb = \\a.strb ;
>   assign \\b.valid = \\i.b.valid ;
>   assign \\i.b.ready = \\b.ready ;
>   assign \\b.data = \\i.b.data ;
>   assign \\b.last = \\i.b.last ;
>   assign \\b.endi = \\i.b.endi ;
>   assign \\b.strb = \\i.b.strb ;
> endmodule
> `default_nettype wire
= 0
# the signals that the source lacks stand at their defaults
$ verilog p
< namespace n {
<   type lo = Stream(data: Bits(8), throughput: 2, complexity: 3);
<   type hi = Stream(data: Bits(8), throughput: 2, complexity: 7);
<   streamlet s = (p: in lo, q: out hi);
<   impl i of s = { p -- q; };
< }
@ p
> `default_nettype none
> module \\n.s (
>   input wire clk,
>   input wire rst,
>   input wire \\p.valid ,
>   output wire \\p.ready ,
>   input wire [15:0] \\p.data ,
>   output wire \\q.valid ,
>   input wire \\q.ready ,
>   output wire [15:0] \\q.data ,
>   output wire [0:0] \\q.stai ,
>   output wire [0:0] \\q.endi ,
>   output wire [1:0] \\q.strb 
> );
>   assign \\q.valid = \\p.valid ;
>   assign \\p.ready = \\q.ready ;
>   assign \\q.data = \\p.data ;
>   assign \\q.stai = 1'b0;
>   assign \\q.endi = 1'b1;
>   assign \\q.strb = 2'b11;
> endmodule
> `default_nettype wire
= 0
# instances of the names of the clock and the reset, of a module of the name of the clock
$ verilog p
< namespace clk {
<   type t = Stream(data: Bits(1), complexity: 1);
<   streamlet clk = (p: in t, q: out t);
<   streamlet s = (p: in t, q: out t);
<   impl i of s = { clk = clk; rst = clk; p -- clk.p; clk.q -- rst.p; rst.q -- q; };
< }
@ p
> `default_nettype none
> module \\clk.clk (
>   input wire clk,
>   input wire rst,
>   input wire \\p.valid ,
>   output wire \\p.ready ,
>   input wire [0:0] \\p.data ,
>   output wire \\q.valid ,
>   input wire \\q.ready ,
>   output wire [0:0] \\q.data 
> );
>   `include \"clk.clk.vh\"
> endmodule
> module \\clk.s (
>   input wire clk,
>   input wire rst,
>   input wire \\p.valid ,
>   output wire \\p.ready ,
>   input wire [0:0] \\p.data ,
>   output wire \\q.valid ,
>   input wire \\q.ready ,
>   output wire [0:0] \\q.data 
> );
>   wire \\clk.p.valid ;
>   wire \\clk.p.ready ;
>   wire [0:0] \\clk.p.data ;
>   wire \\clk.q.valid ;
>   wire \\clk.q.ready ;
>   wire [0:0] \\clk.q.data ;
>   wire \\rst.p.valid ;
>   wire \\rst.p.ready ;
>   wire [0:0] \\rst.p.data ;
>   wire \\rst.q.valid ;
>   wire \\rst.q.ready ;
>   wire [0:0] \\rst.q.data ;
>   \\clk.clk \\clk. (
>     .clk(clk),
>     .rst(rst),
>     .\\p.valid (\\clk.p.valid ),
>     .\\p.ready (\\clk.p.ready ),
>     .\\p.data (\\clk.p.data ),
>     .\\q.valid (\\clk.q.valid ),
>     .\\q.ready (\\clk.q.ready ),
>     .\\q.data (\\clk.q.data )
>   );
>   \\clk.clk \\rst. (
>     .clk(clk),
>     .rst(rst),
>     .\\p.valid (\\rst.p.valid ),
>     .\\p.ready (\\rst.p.ready ),
>     .\\p.data (\\rst.p.data ),
>     .\\q.valid (\\rst.q.valid ),
>     .\\q.ready (\\rst.q.ready ),
>     .\\q.data (\\rst.q.data )
>   );
>   assign \\clk.p.valid = \\p.valid ;
>   assign \\p.ready = \\clk.p.ready ;
>   assign \\clk.p.data = \\p.data ;
>   assign \\rst.p.valid = \\clk.q.valid ;
>   assign \\clk.q.ready = \\rst.p.ready ;
>   assign \\rst.p.data = \\clk.q.data ;
>   assign \\q.valid = \\rst.q.valid ;
>   assign \\rst.q.ready = \\q.ready ;
>   assign \\q.data = \\rst.q.data ;
> endmodule
> `default_nettype wire
= 0
# a reversed stream flows back, and its ready with the requests
$ verilog p
< namespace n {
<   type m = Stream(data: Group(a: Bits(2), d: Stream(data: Bits(3), direction: Reverse, complexity: 1)), complexity: 1);
<   streamlet s = (p: in m, q: out m);
<   impl i of s = { p -- q; };
< }
@ p
> `default_nettype none
> module \\n.s (
>   input wire clk,
>   input wire rst,
>   input wire \\p.valid ,
>   output wire \\p.ready ,
>   input wire [1:0] \\p.data ,
>   output wire \\p.d.valid ,
>   input wire \\p.d.ready ,
>   output wire [2:0] \\p.d.data ,
>   output wire \\q.valid ,
>   input wire \\q.ready ,
>   output wire [1:0] \\q.data ,
>   input wire \\q.d.valid ,
>   output wire \\q.d.ready ,
>   input wire [2:0] \\q.d.data 
> );
>   assign \\q.valid = \\p.valid ;
>   assign \\p.ready = \\q.ready ;
>   assign \\q.data = \\p.data ;
>   assign \\p.d.valid = \\q.d.valid ;
>   assign \\q.d.ready = \\p.d.ready ;
>   assign \\p.d.data = \\q.d.data ;
> endmodule
> `default_nettype wire
= 0
# a linked implementation is a file alone, and a streamlet without ports has its clock
$ verilog p
< namespace n {
<   streamlet s = ();
<   streamlet t = (p: in Stream(data: Bits(8), complexity: 1));
<   impl w of t = \"./w\";
< }
@ p
> `default_nettype none
> module \\n.s (
>   input wire clk,
>   input wire rst
> );
>   `include \"n.s.vh\"
> endmodule
> module \\n.t (
>   input wire clk,
>   input wire rst,
>   input wire \\p.valid ,
>   output wire \\p.ready ,
>   input wire [7:0] \\p.data 
> );
>   `include \"n.t.vh\"
> endmodule
> `default_nettype wire
= 0
# a project without streamlets
$ verilog p
< namespace a { }
@ p
> `default_nettype none
> `default_nettype wire
= 0
# two streams of one path, in the second port of the second streamlet, before an error of links
$ verilog p
< namespace n {
<   type u = Stream(data: Stream(data: Bits(1)), user: Bits(1));
<   streamlet s = (p: in Stream(data: Bits(1)), q: out Stream(data: Bits(1)));
<   streamlet t = (p: in Stream(data: Bits(1)), q: in u);
<   impl i of s = { };
< }
@ p
! tydi: NameClash n::t.q -
= 1
# an end without a link
$ verilog p
< namespace n {
<   streamlet s = (p: in Stream(data: Bits(1)), q: out Stream(data: Bits(1)));
<   impl i of s = { };
< }
@ p
! tydi: Unlinked p 3:13
= 1
# errors of the text, of types and of files are those of other commands
$ verilog p
< namespace a {
@ p
! tydi: EndOfText p
= 1
$ verilog p
< namespace a { streamlet s = (p: in t); }
@ p
! tydi: UnknownName p 1:36
= 1
$ verilog q
< namespace a { }
@ p
! tydi: NoFile q
= 1
# words that spell no command
$ verilog
! tydi: Usage
= 2
$ verilog p q
< namespace a { }
@ p
! tydi: Usage
= 2
$ verilog -p
! tydi: Usage
= 2
# a store that fails
$ verilog p
< namespace a { }
@ p
- store 2
! tydi: ReadFault p
= 3
";
