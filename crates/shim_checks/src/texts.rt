//! Designs and their wrapped texts, which were written by hand.

/// A register stage.
pub const STAGE: &[u8] = b"module pass(input clk, input a_v, output a_r, input [7:0] a_d,
            output b_v, input b_r, output [7:0] b_d);
  reg full;
  reg [7:0] d;
  assign a_r = !full;
  assign b_v = full;
  assign b_d = d;
  always @(posedge clk)
    if (a_v & a_r) begin full <= 1'b1; d <= a_d; end
    else if (b_r) full <= 1'b0;
endmodule
";

/// The stage with its shims.
pub const WRAPPED_STAGE: &[u8] =
    b"module pass ( input clk , input a_v , output a_r , input [ 7 : 0 ] a_d , output b_v , input b_r , output [ 7 : 0 ] b_d ) ;
reg full ;
reg [ 7 : 0 ] d ;
assign a_r = ! full ;
assign b_v = full ;
assign b_d = d ;
always @ ( posedge clk ) if ( a_v & a_r ) begin
full <= 1'b1 ;
d <= a_d ;
end
else if ( b_r ) full <= 1'b0 ;
endmodule
module vidi_m_0 ( input clk , input g , input sv , output sr , input [ 7 : 0 ] s0 , output kv , input kr , output [ 7 : 0 ] k0 , output start , output stop ) ;
reg fly ;
assign kv = sv & g ;
assign sr = kr & g ;
assign k0 = kv ? s0 : 8'd0 ;
assign start = kv & ~ fly ;
assign stop = kv & kr ;
always @ ( posedge clk ) fly <= kv & ~ kr ;
endmodule
module vidi_q_0 ( input clk , input more , input [ 31 : 0 ] n0 , input [ 31 : 0 ] n1 , input d0 , input d1 , input [ 7 : 0 ] s0 , output kv , input kr , output [ 7 : 0 ] k0 , output pop ) ;
reg [ 31 : 0 ] c0 ;
reg [ 31 : 0 ] c1 ;
assign kv = more & ( c0 >= n0 ) & ( c1 >= n1 ) ;
assign k0 = kv ? s0 : 8'd0 ;
assign pop = kv & kr ;
always @ ( posedge clk ) begin
c0 <= c0 + d0 ;
c1 <= c1 + d1 ;
end
endmodule
module vidi_m_1 ( input clk , input g , input sv , output sr , input [ 7 : 0 ] s0 , output kv , input kr , output [ 7 : 0 ] k0 , output start , output stop ) ;
reg fly ;
assign kv = sv & g ;
assign sr = kr & g ;
assign k0 = kv ? s0 : 8'd0 ;
assign start = kv & ~ fly ;
assign stop = kv & kr ;
always @ ( posedge clk ) fly <= kv & ~ kr ;
endmodule
module vidi_q_1 ( input clk , input more , input [ 31 : 0 ] n0 , input [ 31 : 0 ] n1 , input d0 , input d1 , input sv , output sr , output pop ) ;
reg [ 31 : 0 ] c0 ;
reg [ 31 : 0 ] c1 ;
assign sr = more & ( c0 >= n0 ) & ( c1 >= n1 ) ;
assign pop = sv & sr ;
always @ ( posedge clk ) begin
c0 <= c0 + d0 ;
c1 <= c1 + d1 ;
end
endmodule
module vidi_record_top ( input clk , input g_0 , input v_0 , output r_0 , input [ 7 : 0 ] d_0_0 , output start_0 , output stop_0 , input g_1 , output v_1 , input r_1 , output [ 7 : 0 ] d_1_0 , output start_1 , output stop_1 ) ;
wire w_0 ;
wire [ 7 : 0 ] k_0_0 ;
wire w_1 ;
pass dut ( . clk ( clk ) , . a_v ( w_0 ) , . a_r ( r_0 ) , . a_d ( k_0_0 ) , . b_v ( v_1 ) , . b_r ( w_1 ) , . b_d ( d_1_0 ) ) ;
vidi_m_0 m_0 ( . clk ( clk ) , . g ( g_0 ) , . sv ( v_0 ) , . sr ( ) , . s0 ( d_0_0 ) , . kv ( w_0 ) , . kr ( r_0 ) , . k0 ( k_0_0 ) , . start ( start_0 ) , . stop ( stop_0 ) ) ;
vidi_m_1 m_1 ( . clk ( clk ) , . g ( g_1 ) , . sv ( v_1 ) , . sr ( w_1 ) , . s0 ( d_1_0 ) , . kv ( ) , . kr ( r_1 ) , . k0 ( ) , . start ( start_1 ) , . stop ( stop_1 ) ) ;
endmodule
module vidi_replay_top ( input clk , input more_0 , input [ 31 : 0 ] n_0_0 , input [ 31 : 0 ] n_0_1 , input [ 7 : 0 ] s_0_0 , output v_0 , output r_0 , output pop_0 , input more_1 , input [ 31 : 0 ] n_1_0 , input [ 31 : 0 ] n_1_1 , output v_1 , output r_1 , output pop_1 , output [ 7 : 0 ] d_1_0 ) ;
wire [ 7 : 0 ] k_0_0 ;
pass dut ( . clk ( clk ) , . a_v ( v_0 ) , . a_r ( r_0 ) , . a_d ( k_0_0 ) , . b_v ( v_1 ) , . b_r ( r_1 ) , . b_d ( d_1_0 ) ) ;
vidi_q_0 q_0 ( . clk ( clk ) , . more ( more_0 ) , . n0 ( n_0_0 ) , . n1 ( n_0_1 ) , . d0 ( pop_0 ) , . d1 ( pop_1 ) , . s0 ( s_0_0 ) , . kv ( v_0 ) , . kr ( r_0 ) , . k0 ( k_0_0 ) , . pop ( pop_0 ) ) ;
vidi_q_1 q_1 ( . clk ( clk ) , . more ( more_1 ) , . n0 ( n_1_0 ) , . n1 ( n_1_1 ) , . d0 ( pop_0 ) , . d1 ( pop_1 ) , . sv ( v_1 ) , . sr ( r_1 ) , . pop ( pop_1 ) ) ;
endmodule
";

/// A design with a reset, an input that is tied, a channel without content and an output that is ignored.
pub const HELD: &[u8] =
    b"module few(input clk, input [3:0] mode, input rst, input a_v, output a_r, output spare);
  assign a_r = ~rst;
  assign spare = mode[0];
endmodule
";

/// The same with its shims.
pub const WRAPPED_HELD: &[u8] =
    b"module few ( input clk , input [ 3 : 0 ] mode , input rst , input a_v , output a_r , output spare ) ;
assign a_r = ~ rst ;
assign spare = mode [ 0 ] ;
endmodule
module vidi_m_0 ( input clk , input g , input sv , output sr , output kv , input kr , output start , output stop ) ;
reg fly ;
assign kv = sv & g ;
assign sr = kr & g ;
assign start = kv & ~ fly ;
assign stop = kv & kr ;
always @ ( posedge clk ) fly <= kv & ~ kr ;
endmodule
module vidi_q_0 ( input clk , input more , input [ 31 : 0 ] n0 , input d0 , output kv , input kr , output pop ) ;
reg [ 31 : 0 ] c0 ;
assign kv = more & ( c0 >= n0 ) ;
assign pop = kv & kr ;
always @ ( posedge clk ) begin
c0 <= c0 + d0 ;
end
endmodule
module vidi_record_top ( input clk , input [ 3 : 0 ] t_mode , input t_rst , input g_0 , input v_0 , output r_0 , output start_0 , output stop_0 ) ;
wire w_0 ;
few dut ( . clk ( clk ) , . mode ( t_mode ) , . rst ( t_rst ) , . a_v ( w_0 ) , . a_r ( r_0 ) , . spare ( ) ) ;
vidi_m_0 m_0 ( . clk ( clk ) , . g ( g_0 ) , . sv ( v_0 ) , . sr ( ) , . kv ( w_0 ) , . kr ( r_0 ) , . start ( start_0 ) , . stop ( stop_0 ) ) ;
endmodule
module vidi_replay_top ( input clk , input [ 3 : 0 ] t_mode , input t_rst , input more_0 , input [ 31 : 0 ] n_0_0 , output v_0 , output r_0 , output pop_0 ) ;
few dut ( . clk ( clk ) , . mode ( t_mode ) , . rst ( t_rst ) , . a_v ( v_0 ) , . a_r ( r_0 ) , . spare ( ) ) ;
vidi_q_0 q_0 ( . clk ( clk ) , . more ( more_0 ) , . n0 ( n_0_0 ) , . d0 ( pop_0 ) , . kv ( v_0 ) , . kr ( r_0 ) , . pop ( pop_0 ) ) ;
endmodule
";
