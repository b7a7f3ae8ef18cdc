// What the program prints when it is called with no arguments.

pub const USAGE: &str = "pathcomputer: networks, sheets and least totals

  pathcomputer encode TABLE SHEET
      writes the network of a text table as a sheet
  pathcomputer decode SHEET
      prints the table of a sheet
  pathcomputer ring SITES WEIGHT DELAY JITTER CHARGE CAPACITY SHEET
      writes a ring plan as a sheet
  pathcomputer totals SHEET DESTINATION WIDTH
      prints, for each site, the least weight, delay, jitter, charge and hops and the greatest width of all
      walks to the destination over arcs of at least the width; - where there is no way
  pathcomputer orders SHEET ORDERS [--headroom H]
      opens a ledger over a sheet, or over the sheet with H off every capacity, carries out the orders of a text one
      after another, and prints what is answered to each

A table has a line 'sites N' and then, for each arc, a line
  arc FROM TO WEIGHT DELAY JITTER CHARGE CAPACITY
What follows a # is a comment. Sites and arcs are numbered from 0.

An order is one line:
  enquire FROM TO width W delay X jitter X charge X hops X wanted N by KIND [notebook LINES]
  hold WIDTH ARC-ARC-..      confirm TICKET      let-go TICKET      end TICKET
  close ARC                  reopen ARC          free ARC
A KIND is weight, delay, jitter, charge, hops or width.
";
