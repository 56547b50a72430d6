//! What the program says of itself, in lines of at most 80 columns.

pub(crate) const VERSION: &str = "0.1.0";

pub(crate) const ABOUT: &str =
    "Keeps DMA address domains of a simulated VT-d unit, as a script of calls asks.";

pub(crate) const USAGE: &str = "\
vtdm run [OPTIONS] < SCRIPT
       vtdm report [OPTIONS] < SCRIPT
       vtdm check [OPTIONS] < TRACE
       vtdm storm --drivers <DRIVERS> --devices <DEVICES> --calls <CALLS>";

pub(crate) const SCRIPT: &str = "\
A script is read from standard input, one call a line. 'run' answers each line
by a line on standard output, 'report' answers none and tells at the end what is
there; 'check' reads a trace, and 'storm' nothing. Lines, and what they are
answered by:

  domain M [W]          makes a domain, whose addresses have W bits: 'domain D'
  drop D                ends domain D, to which no device is attached and of
                        which no ticket is open, with all its pages: 'ok'
  attach V D            attaches device V to domain D: 'ok'
  detach V              detaches device V from its domain: 'ok'
  map D F N O R         maps N pages of domain D to host frames from F on, where
                        they begin at a multiple of 2^O pages: 'map A'
  maplist D O R F:N ..  maps 1 to 16 such runs, one after the other: 'map A'
  unmap D A N           unmaps N pages of domain D from address A on:
                        'unmapped C'
  flush D               has the unit forget domain D, and releases what was
                        unmapped lazily: 'flushed C'
  begin D               begins a flush of domain D, and doesn't wait for the
                        unit: 'ticket D T'
  unit                  the unit makes a step: 'unit did', or 'unit idle' where
                        nothing waits
  reap D T              ends a begun flush: releases what was unmapped before it
                        was begun, 'reaped C', or, where the unit isn't that far
                        yet, changes nothing: 'pending'
  dma V A X [look] [fill]
                        device V reads or writes at address A: 'host H' or
                        'fault E'; with look the unit answers from its caches
                        where it can, with fill it remembers what it used
  evict K P             the unit forgets what is at place P of its caches, from
                        0: 'ok', also where nothing is there

In these:

  M  strict or lazy                W  39 or 48, and 39 where it is left out
  D  a domain, 1 to 15             V  a device, 0 to 15
  F  a host frame below 2^24: 4 KiB of host memory from address F times 4096
  N  pages of 4 KiB, 1 to 4096 in a call
  O  an order, 0 to 9              R  rights: r, w or rw
  A  a device's byte address, of a page's start but for dma; 'map' answers that
     of the first page: the lowest that is free, and in a domain of 48 bits the
     lowest from 0x8000000000 on, where one is free there
  X  r or w                        K  leaf, nonleaf, context or fault
  H  a host's byte address
  T  the number of a begun flush of its domain, from 1
  C  unmaps of a lazy domain that are released: all at a flush, those before the
     ticket at a reap, and where 256 wait all at the next unmap; else 0
  E  2 not attached, 4 an address beyond the domain's width, 5 a write or 6 a
     read that the page doesn't permit, or of a page that isn't there

In a strict domain unmapped pages are free when 'unmap' answers; in a lazy one
the unit may use them until they are released, and no 'map' answers them before.
Page 0, addresses 0 to 0xfff, is never mapped, and addresses 0xfee00000 to
0xfeefffff are the interrupt window: these are no pages, and an 'unmap' that
touches them is a bad range.

A call that can't be done is 'refused', with one of these numbers:

   1 no such domain      6 frame of a table     11 interrupt window
   2 no such device      7 no free range        12 too many domains
   3 busy                8 no table frames      13 no such ticket
   4 not attached        9 too many pieces      14 64 tickets are open
   5 bad range          10 not live             15 the history is full

Numbers are decimal with no leading zero, or 0x and 1 to 16 hexadecimal digits,
0 to 9 and a to f and no capitals. One space stands between two fields, and none
at an end of a line. A line has at most 512 bytes and ends with a newline, with
no carriage return before it. A last line that lacks its newline is a bad line
too. No line is empty, and none is a comment. At the first line that isn't so
the work stops: standard error says 'line L', the line's number from 1, and the
lines before it are done.

With --trace a line of a trace is written for each call that is entered in the
history, in the place of its reply: 'vtdm check --help' explains it.

With --forever the history is never full, but after 2^56 calls: where there is
no room for one more, those that are kept are forgotten. The history then asks
for twice the memory at the start.

Exit status: 0 done; 1 input or output failed; 2 a bad line or a bad command
line; 3 no memory, or, for a storm, no thread; 4, for a check, an event that is
not allowed. At the start the history asks for about 300 bytes for each call
that it has room for; where the system gives memory only as it is used, it takes
them call by call. The table frames are host frames 0 and on, and can't be
mapped.

Examples:

  printf 'domain strict\\nmap 1 0x100 1 0 rw\\n' | vtdm run
  vtdm run < examples/first-map.script
  vtdm run --frames 256 < script";

pub(crate) const REPORT: &str = "\
A script is read from standard input, of the lines that 'vtdm run --help' tells,
and no line is answered. At its end, or at its first bad line, the report says:

  events 5              calls that were made
  frames 61 free 3 used 0 retired
                        frames for tables; the retired ones wait until unmapped
                        pages are released
  tickets 0 open        flushes that were begun and not yet reaped
  ring 0 pending        invalidation descriptors that wait for the unit
  domain 1 lazy live 2 retired 1 pieces 4
                        a domain: its mode, its mapped pages, its unmaps that
                        are not yet released, and the pieces of its addresses
  device 3 domain 1     an attached device

With --iova the address space of each domain follows, a line for each run of its
pages: their first and last byte, whether they are live, retired (unmapped, but
not yet released) or free, how many they are, and a bar that grows by a mark
where that number doubles. After them stand the unmaps that are not yet
released, each with the number of flushes that were begun before it:

  iova of domain 1 lazy
    0x0000001000-0x0000001fff live             1 #
    0x0000002000-0x0000003fff retired          2 ~~
    0x0000004000-0x00fedfffff free       1043964 ....................
    0x00fef00000-0x7fffffffff free     133173504 ...........................
    0x0000002000-0x0000003fff record           2 mark 0

Exit status: 0 done; 1 input or output failed; 2 a bad line (standard error says
'line L', its number) or a bad command line; 3 no memory.

Examples:

  printf 'domain lazy\\nattach 3 1\\n' | vtdm report
  vtdm report --calls 100 --iova < script";

pub(crate) const CHECK: &str = "\
A trace is read from standard input, one event a line: a call and its reply, as
'vtdm run --help' tells them, with ' => ' between them. 'vtdm run --trace'
writes such lines; so can whoever logs what another manager did. A trace begins
in an empty world, of as many table frames as --frames says. The check tells
whether each reply was allowed, by the model that 'vtdm' is proved to keep to:

  legal 4               all 4 events were allowed

or it stops at the first that wasn't, and tells why: the refusal that is due, or
what the page was that it rests on, and then the replies that would have been
allowed: all of them for a device's request, else one:

  line 4: map 0x1000 is not allowed: page 0x1000 of domain 1 is retired, by an
  unmap of 0x1000 1 after 0 begun flushes; allowed: map 0x2000

(in one line). A line has at most 600 bytes. It is a bad line where the reply is
'refused 15', or isn't spelled as 'vtdm run' spells it.

Exit status: 0 legal; 1 input or output failed; 2 a bad line (standard error
says 'line L', its number) or a bad command line; 3 no memory; 4 not allowed.

Examples:

  vtdm run --trace < script | vtdm check
  vtdm check --frames 16 < trace";

pub(crate) const STORM: &str = "\
Drivers, devices and the unit call one manager, each in a thread of its own. No
script is read. Domain 1 is strict and domain 2 lazy, and the devices are
attached to them by turns. Then, each making so many calls:

  a driver              maps a page of its domain, and unmaps it
  a device              reads at one of 16 pages, at first without the lock
  the unit              works on what the calls leave to it

At the end it prints how many calls there were, those of the beginning too:

  storm drivers 2 devices 2 calls 10 events 54

Exit status: 0 done; 1 output failed; 2 a bad command line; 3 no memory or no
thread.";
