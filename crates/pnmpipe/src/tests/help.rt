//! The help text.

pub const HELP: &str =
    "Passes a stream of PBM, PGM, PPM or PAM images through a chain of tools, as in
  pnmpipe 'pamcut -width 640 | pamflip -lr' < a.ppm > b.ppm
Put CHAIN in quotes; files go by < and >. Every image of a stream is treated.

Usage: pnmpipe [--ring N] [--lanes K] [--plain] CHAIN

Arguments:
  <CHAIN>  1 to 64 tools, separated by |, in one word

Options:
      --ring <N>   Rows that wait between two tools, 1 to 1024 [default: 64]
      --lanes <K>  Threads of each row-wise tool, 1 to 8 [default: 1]
      --plain      Write one plain PBM, PGM or PPM image, not raw ones
  -h, --help       Print help
  -V, --version    Print version

Tools:
  pnminvert
  pamcut [-left N] [-right N] [-top N] [-bottom N] [-width N] [-height N]
          N counts from 0, and a negative one from the end
  pamdepth MAXVAL
  pamchannel [-tupletype TEXT] PLANE...
  pamenlarge N, or [-xscale N] [-yscale N]
  pamflip -null, -lr (-leftright), -tb (-topbottom), -xy (-transpose),
          or counterclockwise -r90, -r180, -r270
  pnmtile WIDTH HEIGHT

Status: 0 all went well, 1 the input, a tool or the output failed, 2 wrong words
Lower --ring only if rows are huge. The page pnmpipe(1) has more.
pnmpipe-explain CHAIN < FILE says what is wrong with a chain or an input.
";
